//! The values of the Observe option (RFC 7641).
ghost use Rattle.std.specs.Prelude.{◌≡◌};
ghost use Rattle.coap_opts.specs.Observe.{has_observe};

/// The value of the Observe option that registers (RFC 7641, section 2).
pub const REGISTER: u32 = 0;

/// The value of the Observe option that cancels (RFC 7641, section 2).
pub const CANCEL: u32 = 1;

/// Returns whether an Observe option has this value; `false` if there is none.
pub fn has_observe(value: u32, observe: Option<u32>) -> bool
    ensures { result ≡ has_observe value observe }
{
    match observe {
        Some(own) => own == value,
        None => false,
    }
}
