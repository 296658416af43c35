// What the program's line asks for.
use thiserror::Error;

/// What the program's line asks for.
#[derive(Clone, Copy)]
pub struct Options<'a> {
    pub program: &'a str,
    pub tables: &'a str,
    pub workers: usize,
    pub kits: usize,
    pub views: Views,
    /// The file that the history of each run is written to.
    pub trace: Option<&'a str>,
    /// The counts of each run are written to standard error.
    pub stats: bool,
    /// What of the script is refused, and each fault of a run, is explained on standard error.
    pub explain: bool,
    /// Each command is done, and answered, as soon as it is read.
    pub live: bool,
    /// It is said on standard error what each run's memo instances come to, and why the first are executed.
    pub why: bool,
}

/// How the views of a run's kits keep lists and amounts: in pieces, whole, or the one in the first, third .. kit and the other in the
/// rest.
#[derive(Clone, Copy)]
pub enum Views {
    Plain,
    Flat,
    Mixed,
}

/// What the program's line asks for: a session with these options, or the normal form of the program at a path.
#[derive(Clone, Copy)]
pub enum Asked<'a> {
    Session(Options<'a>),
    Print(&'a str),
}

/// Why a line gives no options: memory ran out, it has another form, or it asks for a text.
#[derive(Debug, Drop, Error)]
pub enum OptionsError {
    #[error("out of memory")]
    NoMemory,
    #[error("{USAGE}")]
    Usage,
    #[error("Runs a report program over tables, by the commands of a script.\n\n{USAGE}\n\n{HELP}")]
    Help,
    #[error("cilkreport {VERSION}")]
    Version,
}

/// The program's version.
pub const VERSION: &str = "0.1.0";

const USAGE: &str =
    "usage: cilkreport PROGRAM TABLES [--workers 1..16] [--kits 1..4096] [--views plain|flat|mixed] [--trace FILE] [--stats] [--explain] [--live] [--why]
       cilkreport --print PROGRAM";

const HELP: &str = "  PROGRAM         the file of the report program
  TABLES          the file of its tables, in TOML
  --workers N     how many threads run the program: 1 to 16, otherwise 1
  --kits N        how many views of all reducers a run may have at once: 1 to 4096, otherwise 64
  --views SORT    how views keep lists and histograms: plain (in pieces), flat (whole) or mixed, otherwise plain
  --trace FILE    writes the history of each run to FILE, otherwise nowhere
  --stats         writes the counts of each run to standard error, otherwise nowhere
  --explain       explains each refused line of the script and each fault on standard error
  --live          does each command and answers it as soon as it is read; on a terminal asks for lines and explains
  --why           says after each run how often each memo procedure was executed, and why, on standard error
  --print PROGRAM writes the program in its normal form to standard output; there are no tables and no other options
  -h, --help      prints this text
  -V, --version   prints the program's version

The script is read from standard input, and its answers are written to standard output:

  cilkreport sales.cilk tables.toml --workers 4 --stats < script

docs/LANGUAGE.md describes programs, tables and scripts.";
