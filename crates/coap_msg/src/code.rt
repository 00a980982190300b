//! Codes of requests and responses.
ghost use Rattle.std.specs.Prelude.{◌+◌, ◌*◌, ◌/◌, ◌%◌, ◌<◌, ◌≡◌};

use std::fmt;

/// A message code: a 3-bit class and a 5-bit detail (RFC 7252, section 3).
///
/// Each byte value is a code.
#[derive(Clone, Copy, Debug, PartialEq, Eq)]
pub struct Code {
    /// The class in the upper three bits and the detail in the lower five.
    pub byte: u8,
}

impl Code {
    /// 0.00, neither a request nor a response (RFC 7252, section 4.1).
    pub const EMPTY: Code = Code { byte: 0x00 };
    /// 0.01 (RFC 7252, section 5.8.1).
    pub const GET: Code = Code { byte: 0x01 };
    /// 0.02 (RFC 7252, section 5.8.2).
    pub const POST: Code = Code { byte: 0x02 };
    /// 0.03 (RFC 7252, section 5.8.3).
    pub const PUT: Code = Code { byte: 0x03 };
    /// 0.04 (RFC 7252, section 5.8.4).
    pub const DELETE: Code = Code { byte: 0x04 };
    /// 2.01 (RFC 7252, section 5.9.1.1).
    pub const CREATED: Code = Code { byte: 0x41 };
    /// 2.02 (RFC 7252, section 5.9.1.2).
    pub const DELETED: Code = Code { byte: 0x42 };
    /// 2.03 (RFC 7252, section 5.9.1.3).
    pub const VALID: Code = Code { byte: 0x43 };
    /// 2.04 (RFC 7252, section 5.9.1.4).
    pub const CHANGED: Code = Code { byte: 0x44 };
    /// 2.05 (RFC 7252, section 5.9.1.5).
    pub const CONTENT: Code = Code { byte: 0x45 };
    /// 2.31 (RFC 7959, section 2.9.1).
    pub const CONTINUE: Code = Code { byte: 0x5f };
    /// 4.00 (RFC 7252, section 5.9.2.1).
    pub const BAD_REQUEST: Code = Code { byte: 0x80 };
    /// 4.02 (RFC 7252, section 5.9.2.3).
    pub const BAD_OPTION: Code = Code { byte: 0x82 };
    /// 4.03 (RFC 7252, section 5.9.2.4).
    pub const FORBIDDEN: Code = Code { byte: 0x83 };
    /// 4.04 (RFC 7252, section 5.9.2.5).
    pub const NOT_FOUND: Code = Code { byte: 0x84 };
    /// 4.05 (RFC 7252, section 5.9.2.6).
    pub const METHOD_NOT_ALLOWED: Code = Code { byte: 0x85 };
    /// 4.08 (RFC 7959, section 2.9.2).
    pub const REQUEST_ENTITY_INCOMPLETE: Code = Code { byte: 0x88 };
    /// 4.13 (RFC 7959, section 2.9.3).
    pub const REQUEST_ENTITY_TOO_LARGE: Code = Code { byte: 0x8d };
    /// 5.00 (RFC 7252, section 5.9.3.1).
    pub const INTERNAL_SERVER_ERROR: Code = Code { byte: 0xa0 };
    /// 5.03 (RFC 7252, section 5.9.3.4).
    pub const SERVICE_UNAVAILABLE: Code = Code { byte: 0xa3 };
    /// 5.05 (RFC 7252, section 5.9.3.6).
    pub const PROXYING_NOT_SUPPORTED: Code = Code { byte: 0xa5 };

    /// Returns the code of `class` and `detail` (RFC 7252, section 3).
    ///
    /// `class` is 0 to 7, and `detail` is 0 to 31.
    pub fn new(class: u8, detail: u8) -> Code
        requires class { class < 8 }
        requires detail { detail < 32 }
        ensures { result.byte ≡ 32 * class + detail }
    {
        Code {
            byte: 32 * class + detail,
        }
    }

    /// Returns the class, 0 to 7.
    ///
    /// Class 0 is for requests and the empty message, 2 for success, 4 and 5 for errors.
    pub fn class(self) -> u8
        ensures class { result ≡ self.byte / 32 }
        ensures below { result < 8 }
    {
        self.byte / 32
    }

    /// Returns the detail, 0 to 31.
    pub fn detail(self) -> u8
        ensures detail { result ≡ self.byte % 32 }
        ensures below { result < 32 }
    {
        self.byte % 32
    }
}

/// Writes the class, a full stop, and the detail in two digits, as in `2.05`.
impl fmt::Display for Code {
    ghost use Rattle.std.specs.Prelude.{Some};
    ghost use Rattle.coap_msg.specs.Codes.{code_text};

    ghost output = { λ c. Some (code_text c.byte) };

    fn fmt<W: fmt::Write>(&self, f: &mut fmt::Formatter<W>) -> fmt::Result {
        let class = self.class();
        let tens = self.detail() / 10;
        let ones = self.detail() % 10;
        write!(f, "{class}.{tens}{ones}")
    }
}
