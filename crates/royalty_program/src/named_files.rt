//! The CWR files of submitters, as the words of a command name them: NAME=F.

ghost use Rattle.std.specs.Prelude.{◌≡◌, ◌⊎◌, ◌<◌, ◌++◌, ◌∷◌, [], Contains, IfErr, IfOk, IsTrue, false, length, map, string_bytes};
ghost use Rattle.linked_works.specs.Submitters.{IsSubmitter};
ghost use Rattle.royalty_program.specs.NamedFiles.{AreNamed, AreNamedBy, name_in, path_in};

use linked_works::{Submitters, is_submitter};
use std::alloc::{AllocError, Global};

/// The most submitters that have a file each.
const MOST_SUBMITTERS: usize = 256;

/// A CWR file of each submitter.
#[derive(Drop)]
pub struct NamedFiles {
    /// The names of the submitters.
    pub names: Submitters,
    /// The paths of their files, in the same order.
    pub paths: Vec<String>,
}

/// The files that values NAME=F name, or what is wrong with the values.
pub(crate) fn named_files(
    alloc: Global,
    values: &[&str],
) -> Result<Result<NamedFiles, String>, AllocError>
    ensures named { IfOk result (λ named. IfOk named (AreNamedBy (map (λ value. value.now) values.now))) }
    ensures wrong { IfOk result (λ named. IfErr named (λ message. ¬ AreNamed (map (λ value. value.now) values.now))) }
{
    if values.len() > MOST_SUBMITTERS {
        return Ok(Err(String::from_str(alloc, "at most 256 submitters have a file each")?));
    }
    let mut files = NamedFiles {
        names: Submitters::none(alloc),
        paths: Vec::new(alloc),
    };
    for value in values {
        if !files.add(alloc, value)? {
            return Ok(Err(what_is_wrong(alloc, value)?));
        }
    }
    Ok(Ok(files))
}

impl NamedFiles {
    /// Adds the file that a value names. Answers whether it was: a value that is not NAME=F, or whose name is among the
    /// names, adds none.
    fn add(&mut self, alloc: Global, value: &str) -> Result<bool, AllocError>
        ensures names { IfOk result (λ added. IsTrue added → self.new.names ≡ self.old.names ++ name_in value.now ∷ []) }
        ensures paths { IfOk result (λ added. IsTrue added
            → map string_bytes self.new.paths.items ≡ map string_bytes self.old.paths.items ++ path_in value.now ∷ []) }
        ensures sound { IfOk result (λ added. IsTrue added → IsSubmitter (name_in value.now) × ¬ Contains self.old.names (name_in value.now)) }
        ensures path { IfOk result (λ added. IsTrue added → 0 < length (path_in value.now)) }
        ensures refused { IfOk result (λ added. added ≡ false → (length (path_in value.now) ≡ 0)
            ⊎ (¬ (IsSubmitter (name_in value.now) × ¬ Contains self.old.names (name_in value.now)))) }
    {
        let Some((name, path)) = value.split_once('=') else {
            return Ok(false);
        };
        if path.is_empty() {
            return Ok(false);
        }
        let path = String::from_str(alloc, path)?;
        if !self.names.add(alloc, name.as_bytes())? {
            return Ok(false);
        }
        self.paths.push(path)?;
        Ok(true)
    }
}

/// What is wrong with a value that adds no file.
fn what_is_wrong(alloc: Global, value: &str) -> Result<String, AllocError> {
    match value.split_once('=') {
        Some((name, path)) if is_submitter(name.as_bytes()) && !path.is_empty() => {
            format!(in alloc; "the submitter '{name}' has a file already")
        }
        Some((_, path)) if !path.is_empty() => format!(in alloc;
            "invalid value '{value}' for '--cwr <NAME=F>': NAME is not 1 to 16 letters, digits, _ and -, with no - first"
        ),
        _ => format!(in alloc;
            "invalid value '{value}' for '--cwr <NAME=F>': it is not a name, a = and a path"
        ),
    }
}
