// Which shares and lines a key fits.
ghost use Rattle.book.specs.Looking.{is_share, is_line};

use crate::keys::{LineKey, ShareKey};
use tables::keys::Keyed;
use terms::records::{Line, Share};

impl Keyed<ShareKey> for Share {
    ghost fits = { is_share };

    fn is(&self, key: ShareKey) -> bool {
        key == ShareKey {
            group: self.group,
            plant: self.plant,
        }
    }
}

impl Keyed<LineKey> for Line {
    ghost fits = { is_line };

    fn is(&self, key: LineKey) -> bool {
        key == LineKey {
            contract: self.contract,
            direction: self.direction,
            partner: self.partner,
        }
    }
}
