//! The result codes of LDAP that this kit answers.

ghost use Rattle.std.specs.Prelude.{◌≡◌, Some};
ghost use Rattle.dir_change.specs.ResultCodeText.{result_code_text};

use std::fmt;

/// Why an operation is refused (RFC 4511, appendix A).
#[derive(Clone, Copy, PartialEq, Eq, Debug)]
pub enum ResultCode {
    ProtocolError,
    AdminLimitExceeded,
    NoSuchAttribute,
    ConstraintViolation,
    AttributeOrValueExists,
    InvalidAttributeSyntax,
    NoSuchObject,
    UnwillingToPerform,
    NotAllowedOnNonLeaf,
    NotAllowedOnRdn,
    EntryAlreadyExists,
}

impl ResultCode {
    /// The code's number and name, as in `32 noSuchObject`.
    pub fn text(self) -> &'static str
        ensures { result.now ≡ result_code_text self }
    {
        match self {
            ResultCode::ProtocolError => "2 protocolError",
            ResultCode::AdminLimitExceeded => "11 adminLimitExceeded",
            ResultCode::NoSuchAttribute => "16 noSuchAttribute",
            ResultCode::ConstraintViolation => "19 constraintViolation",
            ResultCode::AttributeOrValueExists => "20 attributeOrValueExists",
            ResultCode::InvalidAttributeSyntax => "21 invalidAttributeSyntax",
            ResultCode::NoSuchObject => "32 noSuchObject",
            ResultCode::UnwillingToPerform => "53 unwillingToPerform",
            ResultCode::NotAllowedOnNonLeaf => "66 notAllowedOnNonLeaf",
            ResultCode::NotAllowedOnRdn => "67 notAllowedOnRDN",
            ResultCode::EntryAlreadyExists => "68 entryAlreadyExists",
        }
    }
}

impl fmt::Display for ResultCode {
    ghost output = { λ code. Some (result_code_text code) };

    ghost styled_output = { λ code _. Some (result_code_text code) };

    fn fmt<W: fmt::Write>(&self, f: &mut fmt::Formatter<W>) -> fmt::Result {
        f.write_str(self.text())
    }
}
