//! A Who-Is as a datagram.

ghost use Rattle.std.specs.Prelude.{◌≡◌};
ghost use Rattle.bac_apdu.specs.FormCanon.{canon_form};
ghost use Rattle.bac_apdu.specs.Service.WhoIs.{who_is, who_is_parameters};
ghost use Rattle.bac_apdu.specs.Npdu.{maybe_place_of};
ghost use Rattle.bac_query.specs.Requests.{devices_of, hops_to, who_is_apdu, who_is_octets};

use crate::search::Search;
use bac_apdu::choice::WHO_IS;
use bac_apdu::{Apdu, Far, Npdu, WhoIs, write_apdu, write_datagram};
use bac_wire::Datagram;

/// How many routers a request may pass (clause 6.2.3).
const MOST_HOPS: u8 = 255;

/// All devices of a network behind a router (clause 6.2.2).
fn devices_of<'a>(network: Option<u16>) -> Option<Far<'a>>
    ensures { maybe_place_of result ≡ devices_of network }
{
    match network {
        Some(net) => Some(Far { net, address: &[] }),
        None => None,
    }
}

/// How many routers a request to a network may pass.
fn hops_to(network: Option<u16>) -> u8
    ensures { result ≡ hops_to network }
{
    match network {
        Some(_) => MOST_HOPS,
        None => 0,
    }
}

fn parameters_of(request: &WhoIs) -> Datagram
    ensures { result ≡ canon_form who_is (who_is_parameters request.now) }
{
    let mut parameters = Datagram::new();
    request.write(&mut parameters).unwrap();
    parameters
}

fn apdu_of(request: &WhoIs) -> Datagram
    ensures { result ≡ who_is_apdu request.now }
{
    let parameters = parameters_of(request);
    let mut apdu = Datagram::new();
    write_apdu(
        &mut apdu,
        &Apdu::Unconfirmed {
            service: WHO_IS,
            parameters: parameters.octets(),
        },
    )
    .unwrap();
    apdu
}

/// The request in a frame to one device, which may be a router: no reply is expected, and it has
/// normal priority.
#[tactic(auto, unfolding(crate::specs::Requests::who_is_octets))]
pub(crate) fn datagram_of(search: &Search) -> Datagram
    ensures { result ≡ who_is_octets search.now }
{
    let apdu = apdu_of(&search.who_is);
    let npdu = Npdu {
        network: false,
        reply: false,
        priority: 0,
        dest: devices_of(search.network),
        source: None,
        hops: hops_to(search.network),
    };
    let mut datagram = Datagram::new();
    write_datagram(&mut datagram, &npdu, apdu.octets()).unwrap();
    datagram
}
