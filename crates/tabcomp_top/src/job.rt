//! Reading the words of a command line: a task and two names.
ghost use Rattle.std.specs.Prelude.{map};
ghost use Rattle.std.specs.String.{string_bytes};
ghost use Rattle.tabcomp_top.specs.TabWords.{MeansJob, job_of, job_with};

use crate::task::Task;

/// The task, the name of its input and the name of the output for the result. An empty name is the standard
/// stream.
#[derive(Drop, Clone, Copy)]
pub(crate) struct Job<'a> {
    pub(crate) task: Task,
    pub(crate) input: &'a str,
    pub(crate) output: &'a str,
}

/// The task with the names after its word; or the number of the first word too many.
fn job_with(task: Task, names: &[String]) -> Result<Job<'_>, usize>
    ensures { MeansJob result (job_with task (map string_bytes names.now)) }
{
    let (input, output) = match names {
        [] => ("", ""),
        [input] => (input.as_str(), ""),
        [input, output] => (input.as_str(), output.as_str()),
        _ => return Err(3),
    };
    Ok(Job {
        task,
        input,
        output,
    })
}

/// What the words ask for, or the number, from 0, of the first word that breaks the form; 0 where there is no word.
pub(crate) fn read_words(words: &[String]) -> Result<Job<'_>, usize>
    ensures { MeansJob result (job_of (map string_bytes words.now)) }
{
    let [word, names @ ..] = words else {
        return Err(0);
    };
    match Task::of(word.as_str()) {
        Some(task) => job_with(task, names),
        None => Err(0),
    }
}
