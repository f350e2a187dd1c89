//! Laws of the way of a reply. Each function does nothing: what it ensures is the law.

ghost use Rattle.bac_device.specs.Ways.{DropsTheRest, RepliesGoBack};
ghost use Rattle.bac_device.specs.Ways.{RoutedHeadersAreShort, WaysChangeNothing};

/// A reply goes back the way of its request: to who sent it, or to the address in a
/// Forwarded-NPDU, and to the place behind a router that it came from.
pub fn replies_go_back()
    ensures { RepliesGoBack }
{}

/// The way of a request changes neither the APDU that answers it nor what is left of the device.
pub fn ways_change_nothing()
    ensures { WaysChangeNothing }
{}

/// What a device doesn't hear it doesn't answer, and it leaves the device as it is; a function of
/// broadcast management alone is refused.
pub fn what_is_not_heard_is_dropped()
    ensures { DropsTheRest }
{}

/// The network header of a reply has at most 21 octets.
pub fn routed_headers_are_short()
    ensures { RoutedHeadersAreShort }
{}
