// Definitions on the command line.
use c65_base::Text;

/// A macro that is defined before the first line of a unit: its name and its replacement list, as text without a line feed.
#[derive(Debug, Drop)]
pub struct Define {
    pub name: Text,
    pub body: Text,
}
