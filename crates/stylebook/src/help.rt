// The text of --help.
use commands::verb::Verb;
use std::fmt;

pub struct Help;

impl fmt::Display for Help {
    // How the program is called, and each command with what it prints.
    fn fmt<W: fmt::Write>(&self, f: &mut fmt::Formatter<W>) -> fmt::Result {
        writeln!(f, "usage: stylebook [FILE]")?;
        writeln!(
            f,
            "Reads commands from FILE, or from standard input, one a line; '#' begins a comment."
        )?;
        writeln!(
            f,
            "NAME is letters, digits, '-' and '_'; CONFIG is small, book, large or W0/W1/WD."
        )?;
        writeln!(f, "Each command prints one line:")?;
        for verb in Verb::ALL {
            writeln!(f, "  {verb} {}: {}", verb.operands(), verb.prints())?;
        }
        Ok(())
    }
}
