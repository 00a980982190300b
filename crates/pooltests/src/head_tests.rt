//! Head words without a book (`fc_heads`). Tests of pools try the words of a server.
use fc_heads::Heads;
use std::test::Fail;

// A handle that raised the word of a slot reads that word or a higher one, and 0 for another slot.
#[test]
fn a_raised_word_is_seen(rt: HostRuntime) -> Result<(), Fail> {
    let (heads, mut seat) = Heads::new(rt.alloc())?;
    heads.raise(5, 3, &mut seat);
    assert!(rt; heads.peek(5, &mut seat) >= 3);
    assert!(rt; heads.peek(6, &mut seat) == 0);
    Ok(())
}

// A handle that exchanges knowledge with a handle that raised a word then reads at least that word.
#[test]
fn a_met_seat_sees_what_the_other_raised(rt: HostRuntime) -> Result<(), Fail> {
    let (heads, mut one) = Heads::new(rt.alloc())?;
    let mut other = heads.seat(&mut one)?;
    heads.raise(5, 3, &mut one);
    heads.meet(&mut one, &mut other);
    assert!(rt; heads.peek(5, &mut other) >= 3);
    Ok(())
}

// Raising a word to a lower value leaves the word unchanged.
#[test]
fn a_lower_word_is_not_raised(rt: HostRuntime) -> Result<(), Fail> {
    let (heads, mut one) = Heads::new(rt.alloc())?;
    let mut other = heads.seat(&mut one)?;
    heads.raise(5, 7, &mut one);
    heads.raise(5, 5, &mut other);
    assert!(rt; heads.peek(5, &mut one) == 7);
    assert!(rt; heads.peek(5, &mut other) == 7);
    Ok(())
}
