//! The range of ReadRange (clause 15.8).

ghost use Rattle.std.specs.Prelude.{◌≡◌, [], ◌∷◌};
ghost use Rattle.bac_wire.specs.Primitive.{Unsigned, Signed, Date, Time};
ghost use Rattle.bac_wire.specs.Chain.{Gives};
ghost use Rattle.bac_wire.specs.Stamp.{date_octets, time_octets};
ghost use Rattle.bac_apdu.specs.Adding.{Adds};
ghost use Rattle.bac_apdu.specs.Service.Extent.{range, extent_parameters, by_reference, is_count};
ghost use Rattle.bac_apdu.specs.Service.Extent.{is_date, is_time, date_fits, time_fits};
ghost use Rattle.bac_apdu.specs.Form.{Value as ParameterValue, Mark, application, unsigned, signed};
ghost use Rattle.bac_apdu.specs.Form.{date, time, is_u32};
ghost use Rattle.bac_apdu.specs.FormReading.{row_at, form_at};
ghost use Rattle.bac_apdu.specs.FormCanon.{canon_form};

use crate::parameters::Parameters;
use crate::parameters_out::add_between;
use crate::reason::Reason;
use bac_wire::{Datagram, Date4, Full, PrimitiveType, Time4, Value};

/// Which records are asked for. A count above 0 goes on from the reference, one below 0 ends
/// there; it isn't 0.
#[derive(Clone, Copy, Debug, PartialEq, Eq)]
pub enum Extent {
    /// Every record.
    All,
    /// By place in the log, the oldest being 1.
    ByPosition {
        reference: u32,
        count: i32,
    },
    /// By sequence number.
    ByNumber {
        reference: u32,
        count: i32,
    },
    /// By time: those after it, or those before it. Year, month and day and all of the time are
    /// specified.
    ByTime {
        date: Date4,
        time: Time4,
        count: i32,
    },
}

/// The range, if there is one, and then nothing.
#[tactic(auto, unfolding(crate::specs::FormReading::form_at))]
pub(crate) fn extent_of(mut parameters: Parameters) -> Result<Extent, Reason>
    ensures { Gives extent_parameters result (form_at range parameters.entry) }
{
    if parameters.is_open(3) {
        let (reference, count) = parameters.reference(3)?;
        return Ok(Extent::ByPosition { reference, count });
    }
    if parameters.is_open(6) {
        let (reference, count) = parameters.reference(6)?;
        return Ok(Extent::ByNumber { reference, count });
    }
    if parameters.is_open(7) {
        parameters.open(7)?;
        let date = parameters.date()?;
        let time = parameters.time()?;
        let count = parameters.count()?;
        parameters.close(7)?;
        parameters.end()?;
        return Ok(Extent::ByTime { date, time, count });
    }
    parameters.end()?;
    Ok(Extent::All)
}

pub(crate) fn add_extent(out: &mut Datagram, extent: Extent) -> Result<(), Full>
    ensures { Adds out.old (canon_form range (extent_parameters extent)) result out.new }
{
    match extent {
        Extent::All => Ok(()),
        Extent::ByPosition { reference, count } => add_between(
            out,
            3,
            &[
                Value::Unsigned(reference as u64),
                Value::Signed(count as i64),
            ],
        ),
        Extent::ByNumber { reference, count } => add_between(
            out,
            6,
            &[
                Value::Unsigned(reference as u64),
                Value::Signed(count as i64),
            ],
        ),
        Extent::ByTime { date, time, count } => add_between(
            out,
            7,
            &[
                Value::Date(date),
                Value::Time(time),
                Value::Signed(count as i64),
            ],
        ),
    }
}

impl<'a> Parameters<'a> {
    /// An Unsigned of at most 4294967295.
    #[tactic(auto, unfolding(crate::specs::FormReading::row_at))]
    fn plain_number(&mut self) -> Result<u32, Reason>
        ensures { Gives (λ x. (ParameterValue (Unsigned x), self.new)) result
            (row_at (application unsigned is_u32) self.old) }
    {
        match self.typed(PrimitiveType::Unsigned) {
            Ok(Value::Unsigned(number)) => {
                if number > u32::MAX as u64 {
                    return Err(Reason::OutOfRange);
                }
                Ok(number as u32)
            }
            Ok(_) => Err(Reason::OutOfRange),
            Err(reason) => Err(reason),
        }
    }

    /// A Signed of 32 bits that isn't 0.
    #[tactic(auto, unfolding(crate::specs::FormReading::row_at))]
    fn count(&mut self) -> Result<i32, Reason>
        ensures { Gives (λ x. (ParameterValue (Signed x), self.new)) result
            (row_at (application signed is_count) self.old) }
    {
        match self.typed(PrimitiveType::Signed) {
            Ok(Value::Signed(number)) => {
                if number == 0 || number < i32::MIN as i64 || number > i32::MAX as i64 {
                    return Err(Reason::OutOfRange);
                }
                Ok(number as i32)
            }
            Ok(_) => Err(Reason::OutOfRange),
            Err(reason) => Err(reason),
        }
    }

    /// A Date whose year, month and day are specified.
    #[tactic(auto, unfolding(crate::specs::FormReading::row_at))]
    fn date(&mut self) -> Result<Date4, Reason>
        ensures { Gives (λ x. (ParameterValue (Date (date_octets x)), self.new)) result
            (row_at (application date is_date) self.old) }
    {
        match self.typed(PrimitiveType::Date) {
            Ok(Value::Date(date)) => {
                if !is_full_date(date) {
                    return Err(Reason::OutOfRange);
                }
                Ok(date)
            }
            Ok(_) => Err(Reason::OutOfRange),
            Err(reason) => Err(reason),
        }
    }

    /// A Time that is specified.
    #[tactic(auto, unfolding(crate::specs::FormReading::row_at))]
    fn time(&mut self) -> Result<Time4, Reason>
        ensures { Gives (λ x. (ParameterValue (Time (time_octets x)), self.new)) result
            (row_at (application time is_time) self.old) }
    {
        match self.typed(PrimitiveType::Time) {
            Ok(Value::Time(time)) => {
                if !is_full_time(time) {
                    return Err(Reason::OutOfRange);
                }
                Ok(time)
            }
            Ok(_) => Err(Reason::OutOfRange),
            Err(reason) => Err(reason),
        }
    }

    /// Reference and count between tags of this number, and then nothing.
    #[tactic(auto, unfolding(crate::specs::FormReading::form_at))]
    fn reference(&mut self, tag: u8) -> Result<(u32, i32), Reason>
        ensures { Gives (λ x. Mark tag ∷ ParameterValue (Unsigned x.0) ∷ ParameterValue (Signed x.1)
            ∷ Mark tag ∷ []) result (form_at (by_reference tag) self.old) }
    {
        self.open(tag)?;
        let reference = self.plain_number()?;
        let count = self.count()?;
        self.close(tag)?;
        self.end()?;
        Ok((reference, count))
    }
}

fn is_full_date(date: Date4) -> bool
    ensures { result ≡ date_fits (date_octets date) }
{
    date.year <= 254 && 1 <= date.month && date.month <= 12 && 1 <= date.day && date.day <= 31
}

fn is_full_time(time: Time4) -> bool
    ensures { result ≡ time_fits (time_octets time) }
{
    time.hour <= 23 && time.minute <= 59 && time.second <= 59 && time.hundredth <= 99
}
