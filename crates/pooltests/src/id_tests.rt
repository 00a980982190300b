//! The message IDs that the server draws (RFC 7252, section 4.4).
use fc_front::{DEFAULT_POLICY, Front};
use std::process::Abort;
use std::test::Fail;

// Message IDs are drawn in order, each once in 247,000 ms. After that time the first one is drawn
// again.
#[test]
fn an_id_comes_again_behind_its_window(rt: HostRuntime) -> Result<(), Fail> {
    let mut front = Front::new(rt.alloc(), &DEFAULT_POLICY, 0)?;
    for id in 0..=u16::MAX {
        assert!(rt; front.fresh_id(0) == Some(id), "{id}");
    }
    assert!(rt; front.fresh_id(246_999).is_none());
    assert!(rt; front.fresh_id(247_000) == Some(0));
    Ok(())
}
