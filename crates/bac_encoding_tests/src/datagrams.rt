//! What no row of examples/vectors can show of a datagram.

use bac_wire::Datagram;
use std::test::Fail;

#[test]
fn copies_are_kept(rt: HostRuntime) -> Result<(), Fail> {
    assert!(rt; Datagram::default() == Datagram::new());
    let mut octets = Datagram::of(&[1, 2, 3, 4]).ok_or("four octets fit")?;
    let (copy, clone) = (octets.copy(), octets.clone()?);
    octets.set(2, 9);
    assert_eq!(rt; octets.octets(), [1, 2, 9, 4].as_slice());
    assert_eq!(rt; copy.octets(), [1, 2, 3, 4].as_slice());
    assert!(rt; clone == copy);
    Ok(())
}
