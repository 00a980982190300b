//! Laws about the definitions, for the crates that use this one.
//!
//! Each law is the contract of an empty function.
ghost use Rattle.std.specs.Prelude.{◌≡◌, ◌↔◌, ◌≤◌, ◌+◌, ℕ, Err, List, Ok, Some, length};
ghost use Rattle.coap_msg.specs.declared.types.Bad.{Bad};
ghost use Rattle.coap_msg.specs.Wire.{IsMessage, Message, SpellsMessage, message_bytes, option_bytes, options_bytes};
ghost use Rattle.coap_msg.specs.Reading.{IsBad, message_of, reading_of};
ghost use Rattle.coap_msg.specs.Codes.{code};

use crate::code::Code;

/// Encoding and then parsing a message gives that message.
pub fn written_is_read()
    ensures { (m : Message) → IsMessage m → reading_of (message_bytes m) ≡ Ok m }
{}

/// Bytes encode at most one message, the one that `message_of` returns.
pub fn messages_have_one_spelling(bytes: &[u8])
    ensures found { (m : Message) → SpellsMessage bytes.now m → message_of bytes.now ≡ Some m }
    ensures spelled { (m : Message) → message_of bytes.now ≡ Some m → SpellsMessage bytes.now m }
{}

/// Bytes are parsed as a message exactly if they encode it.
///
/// A confirmable message with a format error is to be rejected with its message ID. All other bytes
/// that encode no message are to be ignored (RFC 7252, sections 4.2 and 4.3).
pub fn readings_are_right(bytes: &[u8])
    ensures message { (m : Message) → ((reading_of bytes.now ≡ Ok m) ↔ SpellsMessage bytes.now m) }
    ensures bad { (e : Bad) → ((reading_of bytes.now ≡ Err e) ↔ IsBad bytes.now e) }
{}

/// Upper bounds on the lengths of an encoded option and an encoded message.
pub fn messages_are_short()
    ensures option { (delta : ℕ) (value : List ℕ) → length (option_bytes delta value) ≤ length value + 5 }
    ensures message { (m : Message) → length (message_bytes m) ≤
        length m.token + length (options_bytes 0 m.options) + length m.payload + 5 }
{}

/// The named codes, by class and detail.
///
/// See RFC 7252, section 12.1, and RFC 7959, section 6.
pub fn codes_are_registered()
    ensures empty { Code.EMPTY.byte ≡ code 0 0 }
    ensures get { Code.GET.byte ≡ code 0 1 }
    ensures post { Code.POST.byte ≡ code 0 2 }
    ensures put { Code.PUT.byte ≡ code 0 3 }
    ensures delete { Code.DELETE.byte ≡ code 0 4 }
    ensures created { Code.CREATED.byte ≡ code 2 1 }
    ensures deleted { Code.DELETED.byte ≡ code 2 2 }
    ensures valid { Code.VALID.byte ≡ code 2 3 }
    ensures changed { Code.CHANGED.byte ≡ code 2 4 }
    ensures content { Code.CONTENT.byte ≡ code 2 5 }
    ensures continues { Code.CONTINUE.byte ≡ code 2 31 }
    ensures bad_request { Code.BAD_REQUEST.byte ≡ code 4 0 }
    ensures bad_option { Code.BAD_OPTION.byte ≡ code 4 2 }
    ensures forbidden { Code.FORBIDDEN.byte ≡ code 4 3 }
    ensures not_found { Code.NOT_FOUND.byte ≡ code 4 4 }
    ensures method_not_allowed { Code.METHOD_NOT_ALLOWED.byte ≡ code 4 5 }
    ensures incomplete { Code.REQUEST_ENTITY_INCOMPLETE.byte ≡ code 4 8 }
    ensures too_large { Code.REQUEST_ENTITY_TOO_LARGE.byte ≡ code 4 13 }
    ensures internal_server_error { Code.INTERNAL_SERVER_ERROR.byte ≡ code 5 0 }
    ensures service_unavailable { Code.SERVICE_UNAVAILABLE.byte ≡ code 5 3 }
    ensures proxying_not_supported { Code.PROXYING_NOT_SUPPORTED.byte ≡ code 5 5 }
{}
