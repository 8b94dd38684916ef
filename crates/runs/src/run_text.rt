//! What is printed of sessions at once.

ghost use Rattle.std.specs.Prelude.{◌≡◌, ◌++◌, IfOk, OnOk, string_bytes};
ghost use Rattle.runs.specs.RunText as spec;
ghost use Rattle.runs.specs.RunText.{denied_lines, replied_lines, verdict_text};

use databases::play_text::{put_told, reply_text, why_name};
use desk::reply::Reply;
use history::weave::WeaveFault;
use std::alloc::Global;
use terms::memory::Memory;
use wire::fault::CallFault;

/// The number that a refusal is printed with, which is the coordinator's where it has one.
fn told_number(fault: CallFault) -> u8
    ensures { result ≡ spec.told_number fault }
{
    match fault {
        CallFault::NotAlone => 9,
        CallFault::NoNext => 10,
        CallFault::Chain => 11,
        other => other.number(),
    }
}

/// Why a command wasn't done, with no line feed at its end.
fn denied_text(alloc: Global, fault: CallFault) -> Result<String, Memory>
    ensures { IfOk result (λ text. string_bytes text ≡ spec.denied_text fault) }
{
    match fault {
        CallFault::Aborted(why) => Ok(format!(in alloc; "aborted {}", why_name(why))?),
        CallFault::Read(fault) => Ok(format!(in alloc; "refused read {fault}")?),
        other => Ok(format!(in alloc; "refused {} {other}", told_number(other))?),
    }
}

/// Puts a reply, in lines behind the session's name.
pub fn put_replied(out: &mut String, name: &str, reply: &Reply) -> Result<(), Memory>
    ensures { OnOk result (string_bytes out.new ≡ string_bytes out.old ++ replied_lines name.now reply.now) }
{
    let text = reply_text(*out.allocator(), reply)?;
    put_told(out, name, text.as_str())
}

/// Puts why a command wasn't done, in lines behind the session's name.
pub fn put_denied(out: &mut String, name: &str, fault: CallFault) -> Result<(), Memory>
    ensures { OnOk result (string_bytes out.new ≡ string_bytes out.old ++ denied_lines name.now fault) }
{
    let text = denied_text(*out.allocator(), fault)?;
    put_told(out, name, text.as_str())
}

/// Puts whether what the machines did was one run of the protocol, or why not.
pub fn put_verdict(out: &mut String, verdict: Option<WeaveFault>) -> Result<(), Memory>
    ensures { OnOk result (string_bytes out.new ≡ string_bytes out.old ++ verdict_text verdict) }
{
    match verdict {
        None => writeln!(out, "weave yes")?,
        Some(fault) => writeln!(out, "weave no {} {fault}", fault.number())?,
    }
    Ok(())
}
