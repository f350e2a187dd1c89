//! Laws about the definitions. Each is a function with an empty body, whose contract is the law.
#![tactic(auto, unfolding(crate::proofs::OnLiterals::line_on_literals))]

ghost use Rattle.std.specs.Prelude.{[], ◌∷◌, codes, None, Some, Ok, Err, negsuc, false, true};
ghost use Rattle.clap.specs.declared.error.kind.ErrorKind.TheVariants.{MissingRequiredArgument};
ghost use Rattle.clap.specs.declared.error.kind.ErrorKind.TheVariants.{MissingSubcommand};
ghost use Rattle.clap.specs.declared.error.kind.ErrorKind.TheVariants.{UnknownArgument};
ghost use Rattle.clap.specs.declared.error.kind.ErrorKind.TheVariants.{ArgumentConflict};
ghost use Rattle.clap.specs.declared.error.kind.ErrorKind.TheVariants.{DisplayHelp};
ghost use Rattle.bac_command_line.specs.declared.word.Word.TheVariants.{Address, From, Instance};
ghost use Rattle.bac_command_line.specs.declared.word.Word.TheVariants.{Max};
ghost use Rattle.bac_command_line.specs.declared.word.Word.TheVariants.{Records, Retries, Dnet};
ghost use Rattle.bac_command_line.specs.declared.word.Word.TheVariants.{Dadr};
ghost use Rattle.bac_command_line.specs.declared.word.Word.TheVariants.{Json as JsonWord, Last};
ghost use Rattle.bac_command_line.specs.declared.word.Word.TheVariants.{Since, Stop, Until, Wait};
ghost use Rattle.bac_form.specs.declared.form.Form.TheVariants.{Csv, Json};
ghost use Rattle.bac_command_line.specs.declared.job.Job.TheVariants.{Replay, Wi, Rp, Wp, Log};
ghost use Rattle.bac_command_line.specs.declared.job.Job.TheVariants.{Logs, Keep};
ghost use Rattle.bac_command_line.specs.declared.job.Job.TheVariants.{Kept, Check, Serve};
ghost use Rattle.bac_command_line.specs.declared.job.Extent.TheVariants.{Newest};
ghost use Rattle.bac_command_line.specs.declared.job.Given.TheVariants.{Null, Signed};
ghost use Rattle.bac_command_line.specs.declared.job.Stations.TheVariants.{Input, Listed};
ghost use Rattle.bac_command_line.specs.Lines.{Says, Mistakes, station, by_default, by_way, group};
ghost use Rattle.bac_command_line.specs.Lines.{no_options, discovery, property_reading};
ghost use Rattle.bac_command_line.specs.Lines.{property_writing};
ghost use Rattle.bac_command_line.specs.Lines.{log_reading, listing, keeping, printing, between};

/// Lines of `bac wi`, and what they ask for.
pub fn lines_say_wi()
    ensures two { Says (codes "bac wi 10.0.0.1 10.0.0.2:258 --min=5 --timeout=60000")
        (Ok (Wi (record (discovery (Listed (station ∷ (10 ∷ 0 ∷ 0 ∷ 2 ∷ 1 ∷ 2 ∷ []) ∷ []))) {
          min = Some 5;
          timeout = 60000;
        }))) }
    ensures subnet { Says (codes "bac wi 10.0.0.1:258/30")
        (Ok (Wi (discovery (Listed ((10 ∷ 0 ∷ 0 ∷ 1 ∷ 1 ∷ 2 ∷ [])
        ∷ (10 ∷ 0 ∷ 0 ∷ 2 ∷ 1 ∷ 2 ∷ []) ∷ []))))) }
    ensures pair { Says (codes "bac wi 10.0.0.1/31")
        (Ok (Wi (discovery (Listed ((10 ∷ 0 ∷ 0 ∷ 0 ∷ 186 ∷ 192 ∷ []) ∷ station ∷ []))))) }
    ensures input { Says (codes "bac wi - --timeout=500")
        (Ok (Wi (record (discovery Input) { timeout = 500 }))) }
    ensures traced { Says (codes "bac wi - --trace")
        (Ok (Wi (record (discovery Input) { trace = true }))) }
    ensures network { Says (codes "bac wi 10.0.0.1 --dnet=65535")
        (Ok (Wi (record (discovery (Listed (station ∷ []))) { dnet = Some 65535 }))) }
{}

/// Lines of `bac rp`, and what they ask for.
pub fn lines_say_rp()
    ensures octets { Says (codes "bac rp 10.0.0.1 8 123 77") (Ok (Rp (property_reading 8 123 77))) }
    ensures numbers { Says (codes "bac rp 10.0.0.1 8 123 77 --numbers")
        (Ok (Rp (record (property_reading 8 123 77) { numbers = true }))) }
    ensures router { Says (codes "bac rp 10.0.0.1 8 123 77 --dnet=7 --dadr=0A01")
        (Ok (Rp (record (property_reading 8 123 77) { asked = by_way 7 (10 ∷ 1 ∷ []) }))) }
{}

/// Lines of `bac wp`, and what they ask for.
pub fn lines_say_wp()
    ensures signed { Says (codes "bac wp 10.0.0.1 45 1 85 16 3 --value=-5")
        (Ok (Wp (property_writing 45 1 85 16 (Signed (negsuc 4))))) }
    ensures null { Says (codes "bac wp 10.0.0.1 5 1 87 0 0 --index=8")
        (Ok (Wp (record (property_writing 5 1 87 0 Null) { index = Some 8 }))) }
{}

/// Lines of `bac log`, and what they ask for.
pub fn lines_say_log()
    ensures oldest { Says (codes "bac log 10.0.0.1 7 oldest") (Ok (Log (log_reading 7 None))) }
    ensures number { Says (codes "bac log 10.0.0.1 7 43") (Ok (Log (log_reading 7 (Some 43)))) }
    ensures count { Says (codes "bac log 10.0.0.1 7 43 --count=20")
        (Ok (Log (record (log_reading 7 (Some 43)) { count = 20 }))) }
    ensures rows { Says (codes "bac log 10.0.0.1 7 43 --csv")
        (Ok (Log (record (log_reading 7 (Some 43)) { form = Csv }))) }
    ensures json { Says (codes "bac log 10.0.0.1 7 43 --json")
        (Ok (Log (record (log_reading 7 (Some 43)) { form = Json }))) }
{}

/// Lines of `bac logs`, and what they ask for.
pub fn lines_say_logs()
    ensures named { Says (codes "bac logs 10.0.0.1 7 0")
        (Ok (Logs (listing (7 ∷ 0 ∷ [])))) }
    ensures every { Says (codes "bac logs 10.0.0.1")
        (Ok (Logs (listing []))) }
{}

/// Lines of `bac keep`, and what they ask for.
pub fn lines_say_keep()
    ensures file { Says (codes "bac keep a.db") (Ok (Keep (keeping (codes "a.db") []))) }
    ensures named { Says (codes "bac keep a.db 10.0.0.1 1 2 --steps=5")
        (Ok (Keep (record (keeping (codes "a.db")
        (group (codes "10.0.0.1") (codes "1" ∷ codes "2" ∷ []) ∷ [])) {
          options = record no_options { steps = Some (codes "5") };
        }))) }
    ensures groups { Says (codes "bac keep a.db 10.0.0.1 10.0.0.2 7 08 10.0.0.3")
        (Ok (Keep (keeping (codes "a.db") (group (codes "10.0.0.1") []
        ∷ group (codes "10.0.0.2") (codes "7" ∷ codes "08" ∷ [])
        ∷ group (codes "10.0.0.3") [] ∷ [])))) }
    ensures first { Says (codes "bac keep a.db 7 8x")
        (Ok (Keep (keeping (codes "a.db")
        (group (codes "7") [] ∷ group (codes "8x") [] ∷ [])))) }
    ensures stop { Says (codes "bac keep a.db --stop 10.0.0.1")
        (Ok (Keep (record (keeping (codes "a.db") (group (codes "10.0.0.1") [] ∷ [])) {
          stop = true;
        }))) }
    ensures no_wait { Says (codes "bac keep a.db 10.0.0.1 --wait=0")
        (Ok (Keep (record (keeping (codes "a.db") (group (codes "10.0.0.1") [] ∷ [])) {
          wait = 0;
        }))) }
    ensures quiet { Says (codes "bac keep a.db -q")
        (Ok (Keep (record (keeping (codes "a.db") []) { quiet = true }))) }
    ensures waits { Says (codes "bac keep a.db --quiet --wait=3600")
        (Ok (Keep (record (keeping (codes "a.db") []) {
          wait = 3600;
          quiet = true;
        }))) }
{}

/// Lines of `bac kept`, and what they ask for.
pub fn lines_say_kept()
    ensures device { Says (codes "bac kept a.db 10.0.0.1")
        (Ok (Kept (record (printing (codes "a.db")) { address = Some (codes "10.0.0.1") }))) }
    ensures csv { Says (codes "bac kept a.db --csv")
        (Ok (Kept (record (printing (codes "a.db")) { form = Csv }))) }
    ensures json { Says (codes "bac kept a.db --json --wait=60")
        (Ok (Kept (record (printing (codes "a.db")) {
          form = Json;
          wait = 60;
        }))) }
    ensures day { Says (codes "bac kept a.db --since=2026-11-30 --until=2026-12-01")
        (Ok (Kept (record (printing (codes "a.db")) {
          extent = between (Some (codes "2026-11-30")) (Some (codes "2026-12-01"));
        }))) }
    ensures since { Says (codes "bac kept a.db --since=2026-11-30T07:08:09.10")
        (Ok (Kept (record (printing (codes "a.db")) {
          extent = between (Some (codes "2026-11-30T07:08:09.10")) None;
        }))) }
    ensures until { Says (codes "bac kept a.db --until=2026")
        (Ok (Kept (record (printing (codes "a.db")) {
          extent = between None (Some (codes "2026"));
        }))) }
    ensures last { Says (codes "bac kept a.db --last")
        (Ok (Kept (record (printing (codes "a.db")) { extent = Newest }))) }
    ensures router { Says (codes "bac kept a.db 10.0.0.1 7 --dnet=5 --dadr=0a")
        (Ok (Kept (record (printing (codes "a.db")) {
          address = Some (codes "10.0.0.1");
          instance = Some (codes "7");
          dnet = Some (codes "5");
          dadr = Some (codes "0a");
        }))) }
{}

/// A line of each tool that asks no device and prints no log, and what it asks for.
pub fn lines_say_others()
    ensures replay { Says (codes "bac replay") (Ok Replay) }
    ensures check { Says (codes "bac check plant")
        (Ok (Check (record { file = codes "plant"; wait = 10; quiet = false }))) }
    ensures status { Says (codes "bac check plant --wait=1 -q")
        (Ok (Check (record { file = codes "plant"; wait = 1; quiet = true }))) }
    ensures serve { Says (codes "bac serve 10.0.0.1")
        (Ok (Serve (record { address = station; count = 4294967295 }))) }
{}

/// Lines with a bad value, and the word that has it.
pub fn lines_say_bad_values()
    ensures input { Says (codes "bac wi - 10.0.0.1") (Err Address) }
    ensures host { Says (codes "bac rp 10.0.0.256 8 123 77") (Err Address) }
    ensures port { Says (codes "bac rp 10.0.0.1:0 8 123 77") (Err Address) }
    ensures network { Says (codes "bac wi 10.0.0.0/19") (Err Address) }
    ensures one { Says (codes "bac rp 10.0.0.1/32 8 123 77") (Err Address) }
    ensures retries { Says (codes "bac rp 10.0.0.1 8 123 77 --retries=11") (Err Retries) }
    ensures from { Says (codes "bac log 10.0.0.1 7 0") (Err From) }
    ensures none { Says (codes "bac log 10.0.0.1 7 43 --count=0") (Err Records) }
    ensures many { Says (codes "bac log 10.0.0.1 7 43 --count=101") (Err Records) }
    ensures instance { Says (codes "bac logs 10.0.0.1 7 4194304") (Err Instance) }
    ensures stop { Says (codes "bac keep a.db --stop") (Err Stop) }
    ensures stop_two { Says (codes "bac keep a.db --stop 10.0.0.1 7 10.0.0.2") (Err Stop) }
    ensures wait { Says (codes "bac keep a.db --wait=3601") (Err Wait) }
    ensures wait_kept { Says (codes "bac kept a.db --wait=1m") (Err Wait) }
    ensures wait_check { Says (codes "bac check a.db --wait=") (Err Wait) }
    ensures two_forms { Says (codes "bac log 10.0.0.1 7 43 --csv --json") (Err JsonWord) }
    ensures two_kept { Says (codes "bac kept a.db --json --csv") (Err JsonWord) }
    ensures max { Says (codes "bac wi 10.0.0.1 --max=5") (Err Max) }
    ensures dnet { Says (codes "bac log 10.0.0.1 7 43 --dnet=65535 --dadr=0a") (Err Dnet) }
    ensures dnet_alone { Says (codes "bac rp 10.0.0.1 8 123 77 --dnet=7") (Err Dadr) }
    ensures dadr_alone { Says (codes "bac rp 10.0.0.1 8 123 77 --dadr=0a") (Err Dnet) }
    ensures place { Says (codes "bac kept a.db --dnet=7 --dadr=0a") (Err Address) }
    ensures year { Says (codes "bac kept a.db --since=202") (Err Since) }
    ensures blank { Says (codes "bac kept a.db --until=2026-11-30_07:08") (Err Until) }
    ensures third { Says (codes "bac kept a.db --until=2026-11-30T07:08:09.101") (Err Until) }
    ensures newest { Says (codes "bac kept a.db --last --since=2026") (Err Last) }
    ensures odd { Says (codes "bac wp 10.0.0.1 5 1 85 8 0 --dnet=7 --dadr=0a1") (Err Dadr) }
{}

/// Lines with a mistake, or that ask for help.
pub fn lines_are_mistakes()
    ensures tool { Mistakes (codes "bac") (MissingSubcommand ∷ []) }
    ensures words { Mistakes (codes "bac rp") (MissingRequiredArgument ∷ []) }
    ensures file { Mistakes (codes "bac keep") (MissingRequiredArgument ∷ []) }
    ensures second { Mistakes (codes "bac kept a.db 10.0.0.1 1 2") (UnknownArgument ∷ []) }
    ensures more { Mistakes (codes "bac replay 1") (UnknownArgument ∷ []) }
    ensures json { Mistakes (codes "bac rp 10.0.0.1 8 123 77 --json") (UnknownArgument ∷ []) }
    ensures quiet { Mistakes (codes "bac kept a.db -q") (UnknownArgument ∷ []) }
    ensures option { Mistakes (codes "bac wi 10.0.0.1 --retries=1") (UnknownArgument ∷ []) }
    ensures twice { Mistakes (codes "bac serve 10.0.0.1 --count=1 --count=1")
        (ArgumentConflict ∷ []) }
    ensures help { Mistakes (codes "bac log --help") (DisplayHelp ∷ []) }
{}
