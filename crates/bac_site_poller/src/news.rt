//! What is told of a site beside the lines of its logs.

ghost use Rattle.std.specs.Prelude.{◌≡◌, ◌++◌, ◌∷◌, [], IfOk, OnOk, decimal};
ghost use Rattle.bac_site_poller.specs.News.{from_text, host_text, news_line, news_text};
ghost use Rattle.bac_site_poller.specs.News.{slow_text, stray_text};

use bac_device_poller::push_count;
use bac_print::{push_address, push_number};
use bac_wire::Address;
use std::alloc::{AllocError, Global};

/// What is told.
#[derive(Clone, Copy)]
pub enum News {
    /// So few requests may be open at the host of an address as never before in the run.
    Slow(Address, usize),
    /// No answer came from the device at an address, but one from another.
    Stray(Address, Address),
}

/// Appends a number, and the point behind it.
fn push_part(text: &mut Vec<u8>, n: u8) -> Result<(), AllocError>
    ensures { OnOk result (text.new.items ≡ text.old.items ++ (decimal n ++ 46 ∷ [])) }
{
    push_number(text, u64::from(n))?;
    text.extend_from_slice(b".")
}

/// Appends `A.B.C.D` of an address.
#[tactic(auto, unfolding(crate::specs::News::host_text))]
fn push_host(text: &mut Vec<u8>, peer: Address) -> Result<(), AllocError>
    ensures { OnOk result (text.new.items ≡ text.old.items ++ host_text peer) }
{
    let [a, b, c, d, high, low] = peer;
    push_part(text, a)?;
    push_part(text, b)?;
    push_part(text, c)?;
    push_number(text, u64::from(d))
}

/// Appends how many requests may be open at the host of an address.
fn push_slow(text: &mut Vec<u8>, peer: Address, limit: usize) -> Result<(), AllocError>
    ensures { OnOk result (text.new.items ≡ text.old.items ++ slow_text peer limit) }
{
    push_host(text, peer)?;
    text.extend_from_slice(b": slow, ")?;
    push_count(text, limit as u64, b" request", b" requests")?;
    text.extend_from_slice(b" at a time")
}

/// Appends from where an answer came.
fn push_from(text: &mut Vec<u8>, from: Address) -> Result<(), AllocError>
    ensures { OnOk result (text.new.items ≡ text.old.items ++ from_text from) }
{
    text.extend_from_slice(b": no answer, but one from ")?;
    push_address(text, from)
}

/// Appends that no answer came from an address, but one from another.
fn push_stray(text: &mut Vec<u8>, peer: Address, from: Address) -> Result<(), AllocError>
    ensures { OnOk result (text.new.items ≡ text.old.items ++ stray_text peer from) }
{
    push_address(text, peer)?;
    push_from(text, from)
}

/// Appends what is told.
fn push_news(text: &mut Vec<u8>, news: News) -> Result<(), AllocError>
    ensures { OnOk result (text.new.items ≡ text.old.items ++ news_text news) }
{
    match news {
        News::Slow(peer, limit) => push_slow(text, peer, limit),
        News::Stray(peer, from) => push_stray(text, peer, from),
    }
}

/// Its line.
pub fn news_line(alloc: Global, news: News) -> Result<Vec<u8>, AllocError>
    ensures { IfOk result (λ line. line.items ≡ news_line news) }
{
    let mut line = Vec::new(alloc);
    push_news(&mut line, news)?;
    line.extend_from_slice(b"\n")?;
    Ok(line)
}
