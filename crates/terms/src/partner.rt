// With whom a line trades.
ghost use Rattle.terms.specs.Partners.{DecodesPartner};

use crate::codes::UnknownCode;

// The power exchange, a party outside the area by its number, or a contract by its number.
#[derive(Clone, Copy, PartialEq, Eq, Debug)]
pub enum Partner {
    Exchange,
    Outside(u32),
    Contract(u32),
}

impl Partner {
    // The partner of this kind and number, or an error where no partner has the kind. The exchange is always numbered 0.
    // Kind and number are two parameters, since a pair would name neither.
    pub fn from_codes(kind: u32, number: u32) -> Result<Partner, UnknownCode>
        ensures { DecodesPartner kind number result }
    {
        match kind {
            1 => Ok(Partner::Exchange),
            2 => Ok(Partner::Outside(number)),
            3 => Ok(Partner::Contract(number)),
            _ => Err(UnknownCode { code: kind }),
        }
    }
}
