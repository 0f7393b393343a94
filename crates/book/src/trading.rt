// Lines and results: the planned and the agreed kWh of a line.
ghost use Rattle.book.specs.Filing.{key_for, refusal_at, set_at, line_refusal, result_refusal, line_filed, result_filed};
ghost use Rattle.book.specs.Judging.{Judges};
ghost use Rattle.book.specs.Figures.{kwh_of};

use crate::filings::Filings;
use crate::keys::{LineCodes, LineKey};
use crate::ranges::{is_figure, is_partner};
use crate::rows::Figure;
use metering::lookup::is_number;
use tables::filing::file_row;
use terms::partner::Partner;
use terms::refusal::Refusal;

impl Filings {
    // A line or a result: its codes, and the planned or the agreed kWh.
    #[tactic(auto, using(crate::proofs::Room::room_left))]
    fn file_figure(&mut self, codes: LineCodes, figure: Figure) -> Result<(), Refusal>
        ensures { Judges (refusal_at self.old codes (kwh_of figure) (key_for figure codes)) self.old (set_at self.old figure (key_for figure codes)) self.new result }
    {
        let key = LineKey::try_from(codes)?;
        if matches!(
            (figure, key.partner),
            (Figure::Agreed(_), Partner::Contract(_))
        ) {
            return Err(Refusal::UnknownCode);
        }
        if !(is_number(key.contract) && is_partner(key.partner, codes.number)) {
            return Err(Refusal::NumberOutOfRange);
        }
        if !is_figure(figure.kwh()) {
            return Err(Refusal::FigureOutOfRange);
        }
        if !self.has_contract(key.contract) {
            return Err(Refusal::UnknownRecord);
        }
        if key.partner == Partner::Contract(key.contract) {
            return Err(Refusal::TradeWithItself);
        }
        if self.lacks_line_room(key) {
            return Err(Refusal::Full);
        }
        file_row(&mut self.lines, key, figure);
        Ok(())
    }

    // A line: a contract, a direction, a partner and the planned kWh.
    pub(crate) fn file_line(&mut self, codes: LineCodes, kwh: u32) -> Result<(), Refusal>
        ensures { Judges (line_refusal self.old codes kwh) self.old (line_filed self.old codes kwh) self.new result }
    {
        self.file_figure(codes, Figure::Planned(kwh))
    }

    // A result: a contract, a direction, the exchange or an outside party, and the agreed kWh.
    pub(crate) fn file_result(&mut self, codes: LineCodes, kwh: u32) -> Result<(), Refusal>
        ensures { Judges (result_refusal self.old codes kwh) self.old (result_filed self.old codes kwh) self.new result }
    {
        self.file_figure(codes, Figure::Agreed(kwh))
    }
}
