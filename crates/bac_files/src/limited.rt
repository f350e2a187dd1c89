//! A limit on the size of a file, as a disk: what would go beyond it finds no room.

ghost use Rattle.std.specs.Prelude.{◌≡◌, ◌+◌, ◌^◌, ◌<◌, ◌≤◌, ◌⊎◌, ℕ, List, false, true, length};
ghost use Rattle.std.specs.Prelude.{drop, is_ok, IfOk, IsErr, IsTrue, OnOk, take};
ghost use Rattle.sqlite_disk.specs.Digest.{Collide, digest};
ghost use Rattle.sqlite_disk.specs.Disk.{CountsFault, CountsFaultIf, Cut, Follows, Holds, Mixed};
ghost use Rattle.sqlite_disk.specs.Disk.{Only, Torn};
ghost use Rattle.sqlite_disk.specs.Refusal.{is_no_room};
ghost use Rattle.sqlite_disk.specs.Tally.{CountsCatch, CountsRefusal};
ghost use Rattle.bac_files.specs.Limited.{IsHandedOn, IsKeptBack, StaysStill, exceeds, faults_in};
ghost use Rattle.bac_files.specs.Limited.{inner_of, most_of, one_more, refused_of, tally_in};

use sqlite_disk::{Disk, Tally};
use std::io::{self, ErrorKind};

/// A disk whose file may have only so many octets. Beyond them it is full.
#[derive(Drop)]
pub struct Limited<D: Disk> {
    inner: D,
    most: Option<u64>,
    /// How many calls weren't handed on.
    refused: u64,
}

/// Whether so many octets from `at` on are more than a file may have.
fn exceeds(most: Option<u64>, at: usize, len: usize) -> bool
    ensures { result ≡ exceeds most (at + len) }
{
    match most {
        Some(most) => match at.checked_add(len) {
            Some(end) => end as u64 > most,
            None => true,
        },
        None => false,
    }
}

/// What a call is answered that isn't handed on; it is counted.
fn refuse(refused: &mut u64) -> io::Error
    ensures kind { is_no_room result ≡ true }
    ensures counted { refused.new ≡ one_more refused.old }
    ensures rises { refused.old ≤ refused.new }
{
    *refused = refused.saturating_add(1);
    ErrorKind::StorageFull.into()
}

impl<D: Disk> Limited<D> {
    /// The disk, and how many octets its file may have.
    pub fn new(inner: D, most: Option<u64>) -> Limited<D>
        ensures inner { inner_of result ≡ inner }
        ensures most { most_of result ≡ most }
        ensures unused { refused_of result ≡ 0 }
    {
        Limited {
            inner,
            most,
            refused: 0,
        }
    }
}

impl<D: Disk> Disk for Limited<D> {
    ghost seen = { λ f. D.Disk.seen f.inner };

    ghost may_leave = { λ f. D.Disk.may_leave f.inner };

    ghost is_usable = { λ f. D.Disk.is_usable f.inner };

    ghost faults = { faults_in D.Disk };

    ghost tally_of = { tally_in D.Disk };

    ghost is_rotten = { λ f. D.Disk.is_rotten f.inner };

    ghost key_of = { λ f. D.Disk.key_of f.inner };

    ghost is_frozen = { λ f. D.Disk.is_frozen f.inner };

    ghost is_clean = { λ f. D.Disk.is_clean f.inner };

    ghost is_fair = { λ f. D.Disk.is_fair f.inner };

    ghost fair_if_clean = { λ f. D.Disk.fair_if_clean f.inner };

    ghost seen_may_stay = { λ f. D.Disk.seen_may_stay f.inner };

    ghost is_mixing = { λ f. D.Disk.is_mixing f.inner };

    fn mixes(&self) -> bool {
        self.inner.mixes()
    }

    fn key(&self) -> u64 {
        self.inner.key()
    }

    fn tally(&self) -> Tally {
        let found = self.inner.tally();
        Tally {
            caught: found.caught,
            refused: found.refused.saturating_add(self.refused),
        }
    }

    fn may_be_used(&self) -> bool {
        self.inner.may_be_used()
    }

    fn len(&mut self) -> io::Result<usize>
        requires { IsTrue (D.Disk.is_usable (inner_of self.old)) }
        ensures handed { IsHandedOn self.old self.new }
        ensures len { IfOk result (λ n. IsTrue (D.Disk.is_clean (inner_of self.new))
            → n ≡ length (D.Disk.seen (inner_of self.old))) }
        ensures faults { CountsFault result (faults_in D.Disk self.old)
            (faults_in D.Disk self.new) }
        ensures clean { IsTrue (D.Disk.is_clean (inner_of self.new))
            → IsTrue (D.Disk.is_clean (inner_of self.old)) }
        ensures frozen { IsTrue (D.Disk.is_frozen (inner_of self.old)) → IsErr result
            × StaysStill D.Disk self.old self.new }
        ensures seen { D.Disk.seen (inner_of self.new) ≡ D.Disk.seen (inner_of self.old) }
        ensures tally { tally_in D.Disk self.new ≡ tally_in D.Disk self.old }
        ensures key { D.Disk.key_of (inner_of self.new) ≡ D.Disk.key_of (inner_of self.old) }
        ensures rot { D.Disk.is_rotten (inner_of self.new) ≡ D.Disk.is_rotten (inner_of self.old) }
        ensures usable { IsTrue (D.Disk.is_usable (inner_of self.new)) }
        ensures crash { (c : List ℕ) → D.Disk.may_leave (inner_of self.new) c
            → D.Disk.may_leave (inner_of self.old) c }
    {
        self.inner.len()
    }

    fn read_at(&mut self, at: usize, buf: &mut [u8]) -> io::Result<()>
        requires { IsTrue (D.Disk.is_usable (inner_of self.old)) }
        ensures handed { IsHandedOn self.old self.new }
        ensures read { OnOk result (IsTrue (D.Disk.is_clean (inner_of self.new))
            → 0 < length buf.old → Holds (D.Disk.seen (inner_of self.old)) at buf.new) }
        ensures faults { CountsFaultIf (IsTrue (D.Disk.is_clean (inner_of self.old))
            → at + length buf.old ≤ length (D.Disk.seen (inner_of self.old))) result
            (faults_in D.Disk self.old) (faults_in D.Disk self.new) }
        ensures clean { IsTrue (D.Disk.is_clean (inner_of self.new))
            → IsTrue (D.Disk.is_clean (inner_of self.old)) }
        ensures frozen { IsTrue (D.Disk.is_frozen (inner_of self.old)) → IsErr result
            × StaysStill D.Disk self.old self.new }
        ensures seen { D.Disk.seen (inner_of self.new) ≡ D.Disk.seen (inner_of self.old) }
        ensures tally { tally_in D.Disk self.new ≡ tally_in D.Disk self.old }
        ensures key { D.Disk.key_of (inner_of self.new) ≡ D.Disk.key_of (inner_of self.old) }
        ensures rot { D.Disk.is_rotten (inner_of self.new) ≡ D.Disk.is_rotten (inner_of self.old) }
        ensures usable { IsTrue (D.Disk.is_usable (inner_of self.new)) }
        ensures crash { (c : List ℕ) → D.Disk.may_leave (inner_of self.new) c
            → D.Disk.may_leave (inner_of self.old) c }
    {
        self.inner.read_at(at, buf)
    }

    fn read_checked(&mut self, key: u64, want: u64, at: usize, buf: &mut [u8]) -> io::Result<()>
        requires usable { IsTrue (D.Disk.is_usable (inner_of self.old)) }
        requires some { 0 < length buf.old }
        requires want { IsTrue (D.Disk.is_clean (inner_of self.old))
            → want ≡ digest key (take (length buf.old)
            (drop at (D.Disk.seen (inner_of self.old)))) }
        ensures handed { IsHandedOn self.old self.new }
        ensures read { OnOk result (IsTrue (D.Disk.is_clean (inner_of self.new))
            → Holds (D.Disk.seen (inner_of self.old)) at buf.new) }
        ensures tested { OnOk result (digest key buf.new ≡ want) }
        ensures detects { IsTrue (D.Disk.is_clean (inner_of self.old))
            → at + length buf.old ≤ length (D.Disk.seen (inner_of self.old))
            → IsTrue (D.Disk.is_clean (inner_of self.new))
            ⊎ Collide key buf.new (take (length buf.old)
            (drop at (D.Disk.seen (inner_of self.old)))) }
        ensures faults { CountsFaultIf (IsTrue (D.Disk.is_clean (inner_of self.old))
            × (at + length buf.old ≤ length (D.Disk.seen (inner_of self.old)))) result
            (faults_in D.Disk self.old) (faults_in D.Disk self.new) }
        ensures clean { IsTrue (D.Disk.is_clean (inner_of self.new))
            → IsTrue (D.Disk.is_clean (inner_of self.old)) }
        ensures fair { D.Disk.is_fair (inner_of self.new) key ≡ D.Disk.is_fair
            (inner_of self.old) key }
        ensures frozen { IsTrue (D.Disk.is_frozen (inner_of self.old)) → IsErr result
            × StaysStill D.Disk self.old self.new }
        ensures seen { D.Disk.seen (inner_of self.new) ≡ D.Disk.seen (inner_of self.old) }
        ensures tally { CountsCatch result (tally_in D.Disk self.old) (tally_in D.Disk self.new) }
        ensures key { D.Disk.key_of (inner_of self.new) ≡ D.Disk.key_of (inner_of self.old) }
        ensures rot { D.Disk.is_rotten (inner_of self.new) ≡ D.Disk.is_rotten (inner_of self.old) }
        ensures rotten { IsTrue (D.Disk.is_rotten (inner_of self.old) at (length buf.old))
            → IsErr result }
        ensures usable { IsTrue (D.Disk.is_usable (inner_of self.new)) }
        ensures crash { (c : List ℕ) → D.Disk.may_leave (inner_of self.new) c
            → D.Disk.may_leave (inner_of self.old) c }
    {
        self.inner.read_checked(key, want, at, buf)
    }

    fn write_at(&mut self, at: usize, bytes: &[u8]) -> io::Result<()>
        requires { IsTrue (D.Disk.is_usable (inner_of self.old)) }
        ensures over { exceeds (most_of self.old) (at + length bytes.now) ≡ true
            → IsKeptBack result self.old self.new }
        ensures within { exceeds (most_of self.old) (at + length bytes.now) ≡ false
            → IsHandedOn self.old self.new }
        ensures written { OnOk result (0 < length bytes.now
            → Holds (D.Disk.seen (inner_of self.new)) at bytes.now) }
        ensures faults { CountsFault result (faults_in D.Disk self.old)
            (faults_in D.Disk self.new) }
        ensures clean { IsTrue (D.Disk.is_clean (inner_of self.new))
            → IsTrue (D.Disk.is_clean (inner_of self.old)) }
        ensures calm { D.Disk.is_clean (inner_of self.new) ≡ D.Disk.is_clean (inner_of self.old) }
        ensures fair { D.Disk.is_fair (inner_of self.new) ≡ D.Disk.is_fair (inner_of self.old) }
        ensures frozen { IsTrue (D.Disk.is_frozen (inner_of self.old)) → IsErr result
            × StaysStill D.Disk self.old self.new }
        ensures others { Torn at (length bytes.now) (D.Disk.seen (inner_of self.old))
            (D.Disk.seen (inner_of self.new)) }
        ensures tally { CountsRefusal result (tally_in D.Disk self.old) (tally_in D.Disk self.new) }
        ensures key { D.Disk.key_of (inner_of self.new) ≡ D.Disk.key_of (inner_of self.old) }
        ensures usable { IsTrue (D.Disk.is_usable (inner_of self.new)) }
        ensures mixing { D.Disk.is_mixing (inner_of self.new) ≡ D.Disk.is_mixing
            (inner_of self.old) }
        ensures mixed { IsTrue (D.Disk.is_mixing (inner_of self.old))
            → at + length bytes.now < 2 ^ 64 → Follows (Mixed at bytes.now)
            (D.Disk.may_leave (inner_of self.old)) (D.Disk.may_leave (inner_of self.new)) }
        ensures crash { Follows (Torn at (length bytes.now)) (D.Disk.may_leave (inner_of self.old))
            (D.Disk.may_leave (inner_of self.new)) }
    {
        if exceeds(self.most, at, bytes.len()) {
            return Err(refuse(&mut self.refused));
        }
        self.inner.write_at(at, bytes)
    }

    fn set_len(&mut self, len: usize) -> io::Result<()>
        requires { IsTrue (D.Disk.is_usable (inner_of self.old)) }
        ensures over { exceeds (most_of self.old) len ≡ true → IsKeptBack result self.old self.new }
        ensures within { exceeds (most_of self.old) len ≡ false → IsHandedOn self.old self.new }
        ensures len { OnOk result (length (D.Disk.seen (inner_of self.new)) ≡ len) }
        ensures faults { CountsFault result (faults_in D.Disk self.old)
            (faults_in D.Disk self.new) }
        ensures clean { IsTrue (D.Disk.is_clean (inner_of self.new))
            → IsTrue (D.Disk.is_clean (inner_of self.old)) }
        ensures calm { D.Disk.is_clean (inner_of self.new) ≡ D.Disk.is_clean (inner_of self.old) }
        ensures fair { D.Disk.is_fair (inner_of self.new) ≡ D.Disk.is_fair (inner_of self.old) }
        ensures frozen { IsTrue (D.Disk.is_frozen (inner_of self.old)) → IsErr result
            × StaysStill D.Disk self.old self.new }
        ensures others { Cut len (D.Disk.seen (inner_of self.old))
            (D.Disk.seen (inner_of self.new)) }
        ensures tally { CountsRefusal result (tally_in D.Disk self.old) (tally_in D.Disk self.new) }
        ensures key { D.Disk.key_of (inner_of self.new) ≡ D.Disk.key_of (inner_of self.old) }
        ensures usable { IsTrue (D.Disk.is_usable (inner_of self.new)) }
        ensures crash { Follows (Cut len) (D.Disk.may_leave (inner_of self.old))
            (D.Disk.may_leave (inner_of self.new)) }
    {
        if exceeds(self.most, 0, len) {
            return Err(refuse(&mut self.refused));
        }
        self.inner.set_len(len)
    }

    fn sync(&mut self) -> io::Result<()>
        requires { IsTrue (D.Disk.is_usable (inner_of self.old)) }
        ensures handed { IsHandedOn self.old self.new }
        ensures durable { OnOk result (Only (D.Disk.seen (inner_of self.old))
            (D.Disk.may_leave (inner_of self.new))) }
        ensures faults { CountsFault result (faults_in D.Disk self.old)
            (faults_in D.Disk self.new) }
        ensures clean { IsTrue (D.Disk.is_clean (inner_of self.new))
            → IsTrue (D.Disk.is_clean (inner_of self.old)) }
        ensures calm { D.Disk.is_clean (inner_of self.new) ≡ D.Disk.is_clean (inner_of self.old) }
        ensures fair { D.Disk.is_fair (inner_of self.new) ≡ D.Disk.is_fair (inner_of self.old) }
        ensures frozen { IsTrue (D.Disk.is_frozen (inner_of self.old)) → IsErr result
            × StaysStill D.Disk self.old self.new }
        ensures seen { D.Disk.seen (inner_of self.new) ≡ D.Disk.seen (inner_of self.old) }
        ensures tally { CountsRefusal result (tally_in D.Disk self.old) (tally_in D.Disk self.new) }
        ensures key { D.Disk.key_of (inner_of self.new) ≡ D.Disk.key_of (inner_of self.old) }
        ensures rot { D.Disk.is_rotten (inner_of self.new) ≡ D.Disk.is_rotten (inner_of self.old) }
        ensures usable { D.Disk.is_usable (inner_of self.new) ≡ is_ok result }
        ensures crash { (c : List ℕ) → D.Disk.may_leave (inner_of self.new) c
            → D.Disk.may_leave (inner_of self.old) c }
    {
        self.inner.sync()
    }
}
