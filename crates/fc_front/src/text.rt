//! The texts of responses: refusals, receipts and links.
ghost use Rattle.std.specs.Prelude.{◌≡◌, ◌+◌, ◌<◌, ◌≤◌, ◌++◌, length};
ghost use Rattle.std.specs.Fmt.{decimal};
ghost use Rattle.fc_isa.specs.Rules.{number_of, fault_text};
ghost use Rattle.fc_ticket.specs.Receipts.{receipt_text};
ghost use Rattle.fc_front.specs.Links.{link, links_from};

use crate::heads::is_present;
use arrayvec::ArrayVec;
use fc_isa::Fault;
use fc_ticket::Receipt;
use itoa::Buffer;

// The greatest length of a text, in bytes.
pub(crate) const TEXT: usize = 128;

// A short text in ASCII.
pub(crate) type Text = ArrayVec<u8, TEXT>;

// Appends bytes to a text that has room for them.
fn push_bytes(text: &mut Text, bytes: &[u8])
    requires { length text.old.items + length bytes.now ≤ 128 }
    ensures items { text.new.items ≡ text.old.items ++ bytes.now }
    ensures len { length text.new.items ≡ length text.old.items + length bytes.now }
{
    let _fits = text.try_extend_from_slice(bytes);
}

// Appends a number in decimal, which has at most twenty digits, to a text.
fn push_decimal(text: &mut Text, number: u64)
    requires { length text.old.items + 20 ≤ 128 }
    ensures items { text.new.items ≡ text.old.items ++ decimal number }
    ensures len { length text.new.items ≤ length text.old.items + 20 }
{
    let mut buffer = Buffer::new();
    push_bytes(text, buffer.format(number).as_bytes());
}

// Returns the text of a refusal, such as `V16 slot 0`.
pub(crate) fn fault_line(fault: &Fault) -> Text
    ensures text { result.items ≡ fault_text (number_of fault.now.rule) fault.now.slot }
    ensures short { length result.items ≤ 128 }
{
    let number = u64::from(fault.rule.number());
    let mut text = ArrayVec::new();
    push_bytes(&mut text, b"V");
    push_decimal(&mut text, number / 10);
    push_decimal(&mut text, number % 10);
    push_bytes(&mut text, b" slot ");
    push_decimal(&mut text, fault.slot as u64);
    text
}

// Returns the text of a receipt, such as `version=1 cost=2 budget=2 vars=0`.
pub(crate) fn receipt_line(receipt: &Receipt) -> Text
    ensures text { result.items ≡ receipt_text receipt.now }
    ensures short { length result.items ≤ 128 }
{
    let mut text = ArrayVec::new();
    push_bytes(&mut text, b"version=");
    push_decimal(&mut text, receipt.version);
    push_bytes(&mut text, b" cost=");
    push_decimal(&mut text, u64::from(receipt.cost));
    push_bytes(&mut text, b" budget=");
    push_decimal(&mut text, u64::from(receipt.budget));
    push_bytes(&mut text, b" vars=");
    push_decimal(&mut text, u64::from(receipt.vars));
    text
}

// Capacity for the links: 64 times a comma, `</r/`, two digits and `>;obs` are 768 bytes.
pub(crate) const LINKS: usize = 1024;

// Returns the links to the slots that have a program, each after a comma. `words` are the head
// words of the slots.
pub(crate) fn link_lines(words: &[u64]) -> ArrayVec<u8, LINKS>
    requires { length words.now ≤ 64 }
    ensures text { result.items ≡ links_from 0 words.now }
    ensures short { length result.items ≤ 1024 }
{
    let mut links = ArrayVec::new();
    for (slot, word) in words.iter().enumerate() {
        if is_present(*word) {
            let line = link_line(slot as u64);
            let _fits = links.try_extend_from_slice(line.as_slice());
        }
    }
    links
}

// Returns the link to a slot's resource, after a comma.
fn link_line(slot: u64) -> Text
    requires { slot < 64 }
    ensures text { result.items ≡ link slot }
    ensures short { length result.items ≤ 12 }
{
    let mut text = ArrayVec::new();
    push_bytes(&mut text, b",</r/");
    push_decimal(&mut text, slot);
    push_bytes(&mut text, b">;obs");
    text
}
