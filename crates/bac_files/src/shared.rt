//! A database file of the machine that another program may have open.

ghost use Rattle.std.specs.Prelude.{◌≡◌, ◌*◌, ◌+◌, ◌≤◌};

use crate::waiting::{Shared, stays_in_use};
use bac_ports::{Sockets, UdpSockets};
use os::RangeLock;
use std::fs::{OpenOptions, metadata};
use std::io::{Error, ErrorKind};
use std::os::fd::AsRawFd;

/// The octets that SQLite locks while it has a database open: pending, reserved and shared.
const LOCKED: u64 = 1 << 30;

/// How many these are.
const LOCKS: u64 = 512;

/// How many seconds a file is waited for at most.
const MOST: u32 = 3600;

/// Whether another program has a file open, as SQLite tells it. Of what can't be read and written
/// the open tells why.
fn is_locked(rt: &HostRuntime, path: &str) -> bool {
    if !matches!(metadata(rt, path), Ok(found) if found.is_file()) {
        return false;
    }
    let Ok(file) = OpenOptions::new().read(true).write(true).open(rt, path) else {
        return false;
    };
    if os::try_lock_range(file.as_raw_fd(), RangeLock::Exclusive, LOCKED, LOCKS) == 0 {
        return false;
    }
    Error::from_raw_os_error(os::errno()).kind() == ErrorKind::WouldBlock
}

/// A file, and how often it was asked whether it is in use.
#[derive(Drop)]
struct Database<'a> {
    rt: &'a HostRuntime,
    path: &'a str,
    asked: u32,
}

impl Shared for Database<'_> {
    ghost asks = { λ old answer new. new.asked ≤ old.asked + 1 };

    fn is_in_use(&mut self) -> bool {
        self.asked = self.asked.saturating_add(1);
        is_locked(self.rt, self.path)
    }
}

/// Whether another program has a file open, also behind a wait over these sockets. It is asked
/// once, and ten times a second at most.
fn asks_over<S: Sockets>(file: &mut Database<'_>, sockets: &mut S, seconds: u32) -> bool
    requires { seconds ≤ 3600 }
    ensures { file.new.asked ≤ file.old.asked + (10 * seconds + 1) }
{
    stays_in_use(file, sockets, seconds)
}

/// Whether another program has a file open, also behind a wait of so many seconds, and how often
/// that was asked.
pub(crate) fn is_in_use(rt: &HostRuntime, path: &str, seconds: u32) -> (bool, u32)
    ensures { result.1 ≤ 10 * seconds + 1 }
{
    let mut file = Database { rt, path, asked: 0 };
    let mut sockets = UdpSockets::new(rt);
    let still = asks_over(&mut file, &mut sockets, seconds.min(MOST));
    (still, file.asked)
}
