//! The commands of the tools, as `clap` takes them.

ghost use Rattle.std.specs.Prelude.{◌≡◌, ◌++◌, map, IfOk, false};
ghost use Rattle.clap.specs.declared.builder.command.Command.TheViews.{out-Command};
ghost use Rattle.clap.specs.Words.{app_of, new_app, with_subcommand};
ghost use Rattle.bac_command_line.specs.Commands.{bac_app, top_app, with_rules, IsCommand};
ghost use Rattle.bac_command_line.specs.Entries.{rule_in, app_for, with_tools};

use crate::entries::with_entries;
use crate::pages::{
    CHECK_PAGE, KEEP_PAGE, KEPT_PAGE, LOG_PAGE, LOGS_PAGE, Page, REPLAY_PAGE, RP_PAGE, SERVE_PAGE,
    WI_PAGE, WP_PAGE,
};
use clap::Command;
use std::alloc::{AllocError, Global};

/// The program without its tools.
fn top<'a>(alloc: Global) -> Command<'a>
    ensures { IsCommand top_app result }
{
    Command::new(alloc, "bac")
        .about("Tools for BACnet/IP: find devices, read and write properties, fetch trend logs")
        .version("0.1.0, ANSI/ASHRAE 135, Protocol_Revision 12")
        .subcommand_required(true)
        .after_help(
            "Example: bac wi 192.168.1.20
prints the device at that address; bac rp, bac wp and bac log then talk to it.
bac keep polls trend logs into a database file, each record once.
bac help log, or bac log --help, has the arguments of a tool, and an example.

Exit status:
  0  done
  1  usage, a bad value or a bad script
  2  no reply, or a read, write or socket fault
  3  refused by the device
  4  bad reply
  5  out of memory
  6  keep, kept, check: the file isn't an archive, can't be read or written,
     is full, or lacks numbers
  7  keep, kept, check: another program has the file open
  8  keep, log --csv, log --json: a step limit",
        )
}

/// The tools of the program.
#[derive(Clone, Copy)]
enum Tool {
    Replay,
    Wi,
    Rp,
    Wp,
    Log,
    Logs,
    Keep,
    Kept,
    Check,
    Serve,
}

/// The page of a tool.
fn page_of<'a>(which: Tool) -> Page<'a>
    ensures { with_rules (new_app result.name.now)
        (map rule_in result.own.now ++ map rule_in result.shared.now) ≡ app_for which }
{
    match which {
        Tool::Replay => REPLAY_PAGE,
        Tool::Wi => WI_PAGE,
        Tool::Rp => RP_PAGE,
        Tool::Wp => WP_PAGE,
        Tool::Log => LOG_PAGE,
        Tool::Logs => LOGS_PAGE,
        Tool::Keep => KEEP_PAGE,
        Tool::Kept => KEPT_PAGE,
        Tool::Check => CHECK_PAGE,
        Tool::Serve => SERVE_PAGE,
    }
}

/// The command of a tool.
fn command_of<'a>(alloc: Global, which: Tool) -> Result<Command<'a>, AllocError>
    ensures { IfOk result (IsCommand (app_for which)) }
{
    let page = page_of(which);
    let command = Command::new(alloc, page.name)
        .about(page.about)
        .after_help(page.example);
    let command = with_entries(alloc, command, page.own)?;
    with_entries(alloc, command, page.shared)
}

/// The command with one more tool.
fn with_tool<'a>(
    alloc: Global,
    command: Command<'a>,
    which: Tool,
) -> Result<Command<'a>, AllocError>
    requires { (out-Command command).has_globals ≡ false }
    ensures { IfOk result (IsCommand
        (with_subcommand (app_of command.entry) (app_for which).top)) }
{
    let tool = command_of(alloc, which)?;
    command.subcommand(tool)
}

/// The command with more tools, in this order.
fn with_tools<'a>(
    alloc: Global,
    command: Command<'a>,
    tools: &[Tool],
) -> Result<Command<'a>, AllocError>
    requires { (out-Command command).has_globals ≡ false }
    ensures { IfOk result (IsCommand (with_tools (app_of command.entry) tools.now)) }
{
    let mut command = command;
    for tool in tools {
        command = with_tool(alloc, command, *tool)?;
    }
    Ok(command)
}

/// All words that the program takes.
pub(crate) fn command<'a>(alloc: Global) -> Result<Command<'a>, AllocError>
    ensures { IfOk result (IsCommand bac_app) }
{
    let tools = [
        Tool::Replay,
        Tool::Wi,
        Tool::Rp,
        Tool::Wp,
        Tool::Log,
        Tool::Logs,
        Tool::Keep,
        Tool::Kept,
        Tool::Check,
        Tool::Serve,
    ];
    with_tools(alloc, top(alloc), &tools)
}
