//! What the next answer is for.

/// What the oldest records are asked for.
#[derive(Clone, Copy, Debug, PartialEq, Eq)]
pub enum Aim {
    /// To find the records that are known among them, or behind them.
    Finds,
    /// To begin an epoch with them, since the log began another life.
    Renews,
    /// To begin the first epoch with them.
    Starts,
}

/// What the next answer is for.
#[derive(Clone, Copy, Debug, PartialEq, Eq)]
pub enum Stage {
    /// The records that are known were asked for, and those behind them.
    Joins,
    /// The number before the first, which is gone.
    Prior,
    /// Those behind the newest known record, by number, since it came alone.
    Ahead,
    /// That record once more.
    Again,
    /// The known records, one by one.
    Each,
    /// The oldest, by time.
    Oldest(Aim),
    /// The last of these by number, since they show no known one and aren't all that is held.
    ByNumber,
    /// Total_Record_Count, since none of them is shown.
    Counts(Aim),
    /// The records up to that count.
    UpTo(Aim),
    /// Those before the first of the records that came.
    Back(Aim),
    /// Database_Revision of the device.
    Revision,
    /// Time_Of_Device_Restart of the device.
    Restart,
}
