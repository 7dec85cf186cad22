//! The folder of the configuration files.

ghost use Rattle.std.specs.Prelude.{◌≡◌};
ghost use Rattle.std.specs.Option.{option_map};
ghost use Rattle.nut_program.specs.Folder.{folder_named, folder_of_variable};

use clap::ArgMatches;
use std::alloc::{Alloc, AllocError, Global};
use std::env;
use std::env::{Env, VarError};

/// The folder if neither the command line nor the environment names one.
const FOLDER: &str = "/etc/nut";

/// The variable that names the folder, as for NUT's programs.
const VARIABLE: &str = "NUT_CONFPATH";

/// Returns the folder that the command line names; else that of the variable NUT_CONFPATH, if it is UTF-8 and not
/// empty; else `/etc/nut`.
pub fn conf_folder<R: Env + Alloc>(
    rt: &R,
    alloc: Global,
    matches: &ArgMatches<'_>,
) -> Result<String, AllocError> {
    if let Some(folder) = matches.get_str("conf") {
        return String::from_str(alloc, named_folder(Some(folder), None));
    }
    match env::var(rt, VARIABLE) {
        Ok(folder) => String::from_str(alloc, named_folder(None, Some(folder.as_str()))),
        Err(VarError::OutOfMemory) => Err(AllocError),
        Err(_) => String::from_str(alloc, named_folder(None, None)),
    }
}

/// Returns the folder that the command line names, or else the variable, or else NUT's.
fn named_folder<'a>(option: Option<&'a str>, variable: Option<&'a str>) -> &'a str
    ensures { result.now ≡ folder_named (option_map (λ s. s.now) option.entry) (option_map (λ s. s.now) variable.entry) }
{
    match (option, variable) {
        (Some(folder), _) => folder,
        (None, Some(folder)) => folder_of_variable(folder),
        (None, None) => FOLDER,
    }
}

/// Returns the folder that a variable names, or NUT's if it is empty.
fn folder_of_variable(variable: &str) -> &str
    ensures { result.now ≡ folder_of_variable variable.now }
{
    if variable.is_empty() {
        FOLDER
    } else {
        variable
    }
}
