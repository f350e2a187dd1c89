//! Laws about the devices of texts. Each is a function with an empty body, whose contract is the
//! law.
#![tactic(auto, unfolding(crate::proofs::OnLiterals::line_on_literals))]

ghost use Rattle.std.specs.Prelude.{◌≡◌, [], ◌∷◌, codes, Ok, Err};
ghost use Rattle.bac_command_line.specs.Devices.{devices_of};
ghost use Rattle.bac_command_line.specs.Lines.{group, group_behind};
ghost use Rattle.bac_command_line.specs.declared.listing.ListFault.TheVariants.{BadLine, Empty};

/// Texts, and the devices that they list.
pub fn texts_list_devices()
    ensures addresses { devices_of (codes "# two\n10.0.0.1\r\n\n10.0.0.2:258")
        ≡ Ok (group (codes "10.0.0.1") [] ∷ group (codes "10.0.0.2:258") [] ∷ []) }
    ensures here { devices_of
        (codes "I-Am 7 10.0.0.1:47808 max-apdu 1476 segmentation 3 vendor 260\n")
        ≡ Ok (group (codes "10.0.0.1:47808") [] ∷ []) }
    ensures router { devices_of
        (codes "I-Am 7 10.0.0.1:47808 net 5 mac 0a01 max-apdu 480 segmentation 3 vendor 0\n")
        ≡ Ok (group_behind (codes "10.0.0.1:47808") (codes "5") (codes "0a01") ∷ []) }
{}

/// Texts with a bad line, or without a device.
pub fn texts_list_none()
    ensures word { devices_of (codes "10.0.0.1\nx\n") ≡ Err (BadLine 2) }
    ensures network { devices_of (codes "10.0.0.0/24\n") ≡ Err (BadLine 1) }
    ensures two { devices_of (codes "10.0.0.1 7\n") ≡ Err (BadLine 1) }
    ensures cut { devices_of (codes "I-Am 7 10.0.0.1:4780") ≡ Err (BadLine 1) }
    ensures place { devices_of (codes "I-Am 7 10.0.0.1:47808 net 5 mac 0a") ≡ Err (BadLine 1) }
    ensures net { devices_of
        (codes "I-Am 7 10.0.0.1:47808 net 65535 mac 0a max-apdu 480 segmentation 3 vendor 0\n")
        ≡ Err (BadLine 1) }
    ensures empty { devices_of (codes "# none\n") ≡ Err Empty }
{}
