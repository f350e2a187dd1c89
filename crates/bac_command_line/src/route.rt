//! The place of a device behind a router: `--dnet` and `--dadr` (clause 6.2.2).

ghost use Rattle.std.specs.Prelude.{◌≡◌, ◌≤◌, Some, option_map};
ghost use Rattle.clap.specs.Words.{rows_of, found_of};
ghost use Rattle.bac_command_line.specs.Rows.{mac_in, route_in, route_at};

use crate::numbers::short;
use crate::rows::text;
use crate::word::Word;
use bac_apdu::Route;
use clap::ArgMatches;

/// The most octets of an address behind a router.
const MAX_MAC: usize = 15;

/// The place on this network whose address these hexadecimal digits say.
#[tactic(auto, unfolding(crate::specs::Rows::mac_in))]
fn place(net: u16, digits: &[u8]) -> Option<Route>
    requires { (1 ≤ net) × (net ≤ 65534) }
    ensures { result ≡ option_map (λ mac. record { net = net; address = mac }) (mac_in digits.now) }
{
    if digits.len() < 2 || 2 * MAX_MAC < digits.len() {
        return None;
    }
    let mut room = [0; MAX_MAC];
    let mac = &mut room[..digits.len() / 2];
    match hex::decode_to_slice(digits, mac) {
        Ok(()) => Route::new(net, mac),
        Err(_) => None,
    }
}

/// What the two options say if both are there.
#[tactic(auto, unfolding(crate::specs::Rows::route_in, crate::specs::Numbers::number_in))]
pub(crate) fn route(net: &[u8], digits: &[u8]) -> Result<Option<Route>, Word>
    ensures { result ≡ route_in (Some net.now) (Some digits.now) }
{
    let Some(net) = short(net, 1, 65534) else {
        return Err(Word::Dnet);
    };
    match place(net, digits) {
        Some(route) => Ok(Some(route)),
        None => Err(Word::Dadr),
    }
}

/// The place behind a router that the texts of the two options say, if they are there; neither goes
/// alone.
#[tactic(auto, unfolding(crate::specs::Rows::route_in))]
pub fn read_route(net: Option<&str>, address: Option<&str>) -> Result<Option<Route>, Word>
    ensures { result ≡ route_in (option_map (λ s. s.now) net.entry)
        (option_map (λ s. s.now) address.entry) }
{
    match (net, address) {
        (Some(net), Some(address)) => route(net.as_bytes(), address.as_bytes()),
        (Some(_), None) => Err(Word::Dadr),
        (None, Some(_)) => Err(Word::Dnet),
        (None, None) => Ok(None),
    }
}

/// The place behind a router that is asked, if there is one.
pub(crate) fn route_at(matches: &ArgMatches) -> Result<Option<Route>, Word>
    ensures { result ≡ route_at (rows_of (found_of matches.now)) }
{
    read_route(text(matches, Word::Dnet), text(matches, Word::Dadr))
}
