//! What a commandable object is commanded to (clause 19.2).

ghost use Rattle.std.specs.Prelude.{◌≡◌, ◌<◌, slice_set};
ghost use Rattle.bac_wire.specs.View.{IsWellFormed, view};
ghost use Rattle.bac_objects.specs.Command.{commanded, present};
ghost use Rattle.bac_objects.specs.Properties.{slot_value, value_of};

use bac_wire::Value;

/// A value of a commandable object.
#[derive(Clone, Copy)]
pub enum Setting {
    Enumerated(u32),
    Unsigned(u32),
    Signed(i32),
}

/// Which values a commandable object takes.
#[derive(Clone, Copy)]
pub enum Range {
    /// 0 and 1.
    Binary,
    /// 1 to the number of states.
    Multistate { states: u32 },
    /// Every integer of 32 bits.
    Integer,
}

/// A commandable object: its values by priority, the highest priority first.
#[derive(Clone, Copy)]
pub struct Command {
    pub range: Range,
    pub slots: [Option<Setting>; 16],
    /// What it has without a command.
    pub default: Setting,
}

impl Setting {
    /// The setting as the value of its type.
    pub(crate) fn value(self) -> Value<'static>
        ensures value { view result ≡ value_of self }
        ensures sound { IsWellFormed result }
    {
        match self {
            Setting::Enumerated(number) => Value::Enumerated(number),
            Setting::Unsigned(number) => Value::Unsigned(number as u64),
            Setting::Signed(number) => Value::Signed(number as i64),
        }
    }
}

/// The value of a priority; without one it is Null.
pub(crate) fn slot_value(slot: Option<Setting>) -> Value<'static>
    ensures value { view result ≡ slot_value slot }
    ensures sound { IsWellFormed result }
{
    match slot {
        Some(setting) => setting.value(),
        None => Value::Null,
    }
}

impl Command {
    /// An object that nothing commands.
    pub(crate) fn new(range: Range, default: Setting) -> Command
        ensures { result ≡ commanded range default }
    {
        Command {
            range,
            slots: [None; 16],
            default,
        }
    }

    /// The value at the highest priority that has one, else the default.
    pub(crate) fn present(&self) -> Setting
        ensures { result ≡ present self.now.slots self.now.default }
    {
        for slot in &self.slots {
            if let Some(setting) = slot {
                return *setting;
            }
        }
        self.default
    }

    /// Sets or empties the slot at an index.
    pub(crate) fn put(&mut self, index: usize, setting: Option<Setting>)
        requires { index < 16 }
        ensures { self.new ≡ record self.old { slots = slice_set self.old.slots index setting } }
    {
        self.slots[index] = setting;
    }
}
