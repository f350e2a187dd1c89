//! Who answers, and whether it is the device on record.

ghost use Rattle.std.specs.Prelude.{◌≡◌, IfOk};
ghost use Rattle.bac_device_poll.specs.Identity.{after_i_am, after_instance, after_name};
ghost use Rattle.bac_device_poll.specs.Identity.{goes_on, met, met_as};
ghost use Rattle.bac_device_poll.specs.Turns.{turned};

use crate::poll::DevicePoll;
use crate::stage::Stage;
use crate::turn::{DeviceEnd, Turn, none, only};
use bac_answers::{Entry, Text, Who, Whose, find_whose};
use bac_wire::ObjectId;
use std::alloc::{AllocError, Global};

impl DevicePoll {
    // It is known: its word is asked for.
    fn go_on_with(&mut self, who: Who, entries: Vec<Entry>) -> Turn
        ensures { turned self.new result ≡ goes_on self.old who entries.items }
    {
        self.stage = Stage::Restart;
        self.who = Some(who);
        Turn::asks(entries)
    }

    // Whose answers these are.
    fn meet_as(&mut self, alloc: Global, who: Who, whose: Whose) -> Result<Turn, AllocError>
        ensures { IfOk result (λ turn. turned self.new turn ≡ met_as self.old who whose) }
    {
        match whose {
            Whose::New => {
                let entries = only(alloc, Entry::Known(who.copied(alloc)?))?;
                Ok(self.go_on_with(who, entries))
            }
            Whose::Same => Ok(self.go_on_with(who, none(alloc))),
            Whose::Now => {
                let entries = only(alloc, Entry::KnownNow(who.copied(alloc)?))?;
                Ok(self.go_on_with(who, entries))
            }
            Whose::Another => {
                let entries = only(alloc, Entry::Another(who))?;
                self.leave(entries, DeviceEnd::Foreign)
            }
            Whose::Untold => {
                let entries = only(alloc, Entry::Untold)?;
                self.leave(entries, DeviceEnd::Foreign)
            }
        }
    }

    // This one answers.
    fn meet(&mut self, alloc: Global, who: Who) -> Result<Turn, AllocError>
        ensures { IfOk result (λ turn. turned self.new turn ≡ met self.old who) }
    {
        let whose = find_whose(&self.who, &who);
        self.meet_as(alloc, who, whose)
    }

    /// Takes its Object_Identifier, if it tells one.
    pub(crate) fn hear_instance(
        &mut self,
        alloc: Global,
        device: Option<ObjectId>,
    ) -> Result<Turn, AllocError>
        ensures { IfOk result (λ turn. turned self.new turn ≡ after_instance self.old device) }
    {
        match device {
            Some(device) => self.meet(alloc, Who::Device(device)),
            None => {
                self.stage = Stage::IAm;
                Ok(Turn::asks(none(alloc)))
            }
        }
    }

    /// Takes the Device object of an I-Am that came to the Who-Is from its place, if one came in
    /// time.
    pub fn hear_i_am(&mut self, alloc: Global, device: Option<ObjectId>) -> Result<Turn, AllocError>
        ensures { IfOk result (λ turn. turned self.new turn ≡ after_i_am self.old device) }
    {
        match device {
            Some(device) => self.meet(alloc, Who::Device(device)),
            None => {
                self.stage = Stage::Name;
                Ok(Turn::asks(none(alloc)))
            }
        }
    }

    /// Takes its Object_Name, if it tells one.
    pub(crate) fn hear_name(
        &mut self,
        alloc: Global,
        name: Option<Text>,
    ) -> Result<Turn, AllocError>
        ensures { IfOk result (λ turn. turned self.new turn ≡ after_name self.old name) }
    {
        match name {
            Some(name) => self.meet(alloc, Who::Name(name)),
            None => self.meet(alloc, Who::Address),
        }
    }
}
