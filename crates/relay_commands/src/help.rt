//! The helps.

/// What `screencat --help` prints.
pub const SCREENCAT_HELP: &[u8] =
    b"Prints the screen that a program's output leaves, as a far terminal shows it.

Usage: screencat ROWS COLS [--no-line-drawing] < OUTPUT

Arguments:
  ROWS  The rows of the screen, 1 to 65535
  COLS  Its columns, 1 to 65535

Options:
      --no-line-drawing  The screen reads the output as it is: letters stay where a program
                         draws lines with DEC's special graphics.
                         The option may also come before ROWS
  -h, --help             Print this help

Standard input is read to its end. An update that the program left open is ended. Then the rows of
the screen are printed.

Examples:
  screencat 24 80 < output                      the screen that a program's output leaves
  script -qc make /dev/null | screencat 24 80   what make leaves, run in a terminal of its own

The status is 0 at success, 1 at a fault, 2 for words that aren't understood.
";

/// What `screenlive --help` prints.
pub const SCREENLIVE_HELP: &[u8] =
    b"Relays a program's output as it comes, as frames of its screen for a terminal of this size.

Usage: screenlive ROWS COLS [--no-line-drawing] < OUTPUT > TERMINAL

Arguments:
  ROWS  The rows of the screen, 1 to 65535
  COLS  Its columns, 1 to 65535

Options:
      --no-line-drawing  The screen reads the output as it is: letters stay where a program
                         draws lines with DEC's special graphics.
                         The option may also come before ROWS
  -h, --help             Print this help

A frame is written after each read of standard input, and at once. The terminal that reads the
frames shows each one whole. At the end of the input what the program left on is ended, such as an
update, mouse reports or a hidden cursor, and a last frame is written where one is due.

Examples:
  script -qfc top /dev/null | screenlive 24 80 | ssh there 'cat > /dev/tty1'
  docker logs -f container | screenlive 24 80 > /dev/pts/3

The status is 0 at success, 1 at a fault, 2 for words that aren't understood.
";
