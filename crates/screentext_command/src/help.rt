//! The help, the usage and the version.

/// What `screentext --help` prints.
pub const HELP: &[u8] = b"Prints what a recorded terminal stream shows, at its end or at a moment.

Usage: screentext [ROWS COLS] [OPTIONS] < RECORDING

Arguments:
  [ROWS]  The rows of the screen at first
  [COLS]  Its columns

Options:
      --at <SECONDS|MARKER>    The screen at this time of the recording, or at this marker, and not at its end
      --diff <SECONDS|MARKER>  The rows that changed from this time on, before and after
      --history <N>            The newest N rows that left at the top, before those of the screen; not in films or pages
      --joined...              A row that goes on in the next is one line with it, in text
      --colours...             Colours and other attributes, as escape sequences (SGR) [alias: --colors]
      --html...                A page in HTML that shows the screen
      --svg...                 A picture in SVG of the screen; not with --html
      --list...                The recording's kind, size, length and markers, and no screen
      --kind <NAME>            asciicast, script, ttyrec or raw, in place of what its first bytes say
      --timing <FILE>          The timing file of a typescript that was made by script
      --no-line-drawing...     Letters stay where a program draws lines with DEC's special graphics
      --strict...              A recording that was cut, or stops making sense, is a fault
      --max-cells <N>          A size in the recording has N cells at most: 4,000,000 without this option
      --html-block...          The block alone of such a page, to be pasted into another
      --theme <NAME>           The colours of pictures: xterm, light, asciinema, dracula, \
gruvbox-dark, monokai, nord, solarized-dark, solarized-light or tango
      --font <NAME>            The font of pictures, where it is installed
      --bold-is-bright...      Bold texts in the first eight colours have the bright ones, as in the theme xterm
      --bold-is-plain...       Bold texts keep their colour, also in the theme xterm; not with --bold-is-bright
      --no-cursor...           Pictures don't show the cursor
      --padding <N>            N pixels between a picture in SVG and each edge, 0 to 255: none without this option
      --font-size <N>          Letters of a picture in SVG are N pixels high, 1 to 255: 15 without this option
      --window <TITLE>         A picture in SVG is in a window, with this title in its bar
      --animate...             With --svg: a picture that plays the recording, 8 MiB at most
      --speed <N>              It plays N times as fast as it was recorded
      --idle <SECONDS>         No screen stands longer than this time, in place of an asciicast's own limit
      --fps <N>                A film shows N screens a second at most, 1 to 1000: 30 without this option
      --loop <N>               A film plays N times, and then its last screen stays: over and over without it
      --from <SECONDS|MARKER>  A film begins with the screen at this time of the recording, or at this marker
      --poster <TIME>          Where nothing plays, a film shows the screen at this time or marker, not the last one
      --player...              A page in HTML that plays the recording, 32 MiB at most; --at is what it shows at first
  -h, --help                   Print help
  -V, --version                Print version

The recording is an asciicast, a typescript with its timing file, a ttyrec, or
the raw bytes of a program's output. ROWS and COLS, both or neither, are the size of the
screen at first, in place of that in the recording's header; a recording with none is
shown on 24 rows and 80 columns.

Examples:
  screentext < demo.cast                         the last screen, as text
  screentext --at 12.5 --svg < demo.cast         a picture of the screen after 12.5 seconds
  screentext --at done --html < demo.cast        a page of the screen at the marker `done`
  screentext --html-block < demo.cast            a block to be pasted into a page
  screentext --svg --theme nord < demo.cast      a picture in other colours
  screentext --svg --window demo --padding 8 < demo.cast       a picture in a window
  screentext --svg --animate --idle 2 < demo.cast > demo.svg   a film for a README
  screentext --player --idle 2 < demo.cast > demo.html         a page that plays it
  screentext --timing times 24 80 < typescript   a session that script(1) recorded
  screentext --list < game.ttyrec                its kind, length and markers

A recording that was cut, or stops making sense, is shown up to there. A line on standard
error says where that is, and the status is 3.

The status is 0 at success, 1 at a fault, 2 for words that aren't understood, 3 for a
recording of which only a part was read.
";

/// What `screentext --version` prints.
pub const VERSION: &[u8] = b"screentext 0.1\n";

/// What is printed for arguments that aren't understood.
pub const USAGE: &str =
    "usage: screentext [ROWS COLS] [--at SECONDS] [--diff SECONDS] [--history N] [--joined] \
[--colours] [--html | --html-block | --player | --svg [--animate]] [--speed N] \
[--idle SECONDS] [--fps N] [--loop N] [--from SECONDS] \
[--poster SECONDS] [--theme NAME] [--font NAME] [--bold-is-bright | --bold-is-plain] [--no-cursor] \
[--padding N] [--font-size N] [--window TITLE] \
[--list] [--kind NAME] [--timing FILE] [--no-line-drawing] [--strict] [--max-cells N]; \
screentext --help says what they do\n";
