//! Octets in hexadecimal digits.

ghost use Rattle.bac_wire.specs.OptionChain.{GivesSome};
ghost use Rattle.bac_script.specs.Script.Hexadecimal.{octets_in};

/// The greatest number of octets that a line says: those of the longest datagram.
pub(crate) const LONGEST: usize = 1501;

/// The octets that 2 to 3,002 digits say, two digits each, in either case, put into the room.
pub(crate) fn octets_in<'r>(word: &[u8], room: &'r mut [u8; LONGEST]) -> Option<&'r [u8]>
    ensures { GivesSome (λ octets. octets.now) result (octets_in word.now) }
{
    if word.len() < 2 || 2 * LONGEST < word.len() {
        return None;
    }
    let octets = &mut room[..word.len() / 2];
    match hex::decode_to_slice(word, octets) {
        Ok(()) => Some(octets),
        Err(_) => None,
    }
}
