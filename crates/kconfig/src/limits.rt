//! The limits of texts and tables, each written once.

/// How many bytes a text has at most: of a tree or of a file.
pub const MAX_TEXT_LEN: usize = 49_152;

/// How many symbols a tree declares at most, and so how many records a session wants at most.
pub const MAX_SYMBOLS: usize = 256;

/// How many attribute lines a tree has at most.
pub const MAX_ATTRIBUTES: usize = 1_024;

/// How many parts the expressions of a tree have at most.
pub const MAX_PARTS: usize = 2_048;

/// How many menus and ifs stand open at most, and how deep `(` and `!` nest at most in an expression.
pub const MAX_NESTING: usize = 16;

/// How many bytes a word has at most, and so the name of a symbol.
pub const MAX_NAME: usize = 40;

/// How many bytes a quoted text has at most, and so the value of a string symbol.
pub const MAX_TEXT: usize = 64;

/// How many bytes a path in a job sheet has at most.
pub const MAX_PATH: usize = 200;

/// How many bytes a form has at most: a text whose bytes are all escaped, between quotes.
pub const MAX_FORM: usize = 2 * MAX_TEXT + 2;

/// How many bytes a line of a written file has at most: `CONFIG_`, a name, `=`, a form and a line feed.
pub const MAX_LINE: usize = 7 + MAX_NAME + 1 + MAX_FORM + 1;

/// How many bytes a written file has at most.
pub const MAX_FILE_LEN: usize = MAX_SYMBOLS * MAX_LINE;

/// How many bytes a job sheet has at most: its four keys and line feeds, `savedefconfig` and three paths.
pub const MAX_SHEET_LEN: usize = 5 + 13 + 6 + 6 + 9 + 3 * MAX_PATH;

/// How many bytes the three lines of a refusal have room for.
pub const MAX_REFUSAL_LEN: usize = 64;
