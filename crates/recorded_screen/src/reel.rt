//! What a film is made of: rows that are drawn once, and a track for each row of the screen.

ghost use Rattle.std.specs.Prelude.{◌≡◌, ◌⊎◌, ◌≤◌, ◌<◌, ◌+◌, ◌*◌, ◌/◌, ◌^◌, ◌++◌, ℕ, [], ◌∷◌, IfOk, IfErr, OnOk};
ghost use Rattle.std.specs.Prelude.{◌-◌, if◌then◌else◌, length, map, max, nat_lt, replicate, slice_index};
ghost use Rattle.std.specs.List.{flat_map};
ghost use Rattle.picture_page.specs.Bytes.{numbers_bytes};
ghost use Rattle.picture_page.specs.Page.{Adds, IsPage, IsSafe};
ghost use Rattle.row_pictures.specs.Svg.{AreSvgRuns};
ghost use Rattle.recorded_screen.specs.Reel.{changes_in, decimal_point, drawn_bytes, drawn_row, film_bytes, in_64_bits};
ghost use Rattle.recorded_screen.specs.Reel.{in_32_bits as in_32_bits_of, keyframes, last_place as last_place_in};
ghost use Rattle.recorded_screen.specs.Reel.{end_bytes, last_bytes, place_at as place_at_in, plays_bytes, showing};
ghost use Rattle.recorded_screen.specs.Reel.{shots_until as shots_until_in, still_place as still_place_in};
ghost use Rattle.recorded_screen.specs.Reel.{no_track, numbered, place as place_in, shot_bytes};
ghost use Rattle.recorded_screen.specs.Reel.{times_bytes, track_bytes, track_times, used_row};
ghost use Rattle.recorded_screen.specs.Shots.{Grows, Inserts, IsAt, IsDrawn, IsReel, IsShown, IsTrack, Shows, ShowsRow};
ghost use Rattle.recorded_screen.specs.Shots.{TakesPlace, rows_of, track_of, tracks_of};
ghost use Rattle.recorded_screen.specs.declared.error.FilmError.TheVariants.{Memory, TooLong};

use crate::error::FilmError;
use crate::picture::push_svg_head;
use indexmap::IndexSet;
use recordings::ScreenSize;
use row_pictures::{COL_WIDTH, Cell, Look, Page, ROW_HEIGHT, Tag, push_svg_row};
use std::alloc::{AllocError, Global};

/// The longest film, in bytes.
pub const LONGEST_FILM: usize = 8 << 20;

// How long the last screen is shown, in microseconds.
const LAST: u64 = 1_000_000;

// A change in a track takes at least this many bytes of a film.
const CHANGE_LEN: usize = 27;

/// A film that is being built.
#[derive(Drop)]
pub(crate) struct Reel {
    // The size of the picture.
    size: ScreenSize,
    // The rows that are drawn, as they are written.
    rows: IndexSet<Vec<u8>>,
    // The rows as they are in the picture.
    drawn_rows: Page,
    // The tracks, one for each row of the screen.
    tracks: Vec<Track>,
    // The time of the film that was reached, in microseconds.
    time: u64,
}

/// The track of a row of the screen.
#[derive(Drop)]
pub(crate) struct Track {
    // The drawn rows that it shows at some time, by their numbers.
    rows: IndexSet<usize>,
    // Which of these is shown from when on.
    shots: Vec<Shot>,
}

/// The row at this place of a track is shown from this time of the film on, in microseconds.
#[derive(Clone, Copy)]
pub(crate) struct Shot {
    time: u64,
    place: usize,
}

/// How a film is shown.
#[derive(Clone, Copy)]
pub(crate) struct Showing {
    // Its length, in microseconds.
    length: u64,
    // How often it plays, if not over and over.
    plays: Option<u16>,
    // The time of what is shown where nothing plays, if that isn't the last screen.
    poster: Option<u64>,
}

impl Track {
    // An empty track.
    fn new(alloc: Global) -> Self
        ensures { track_of result ≡ no_track }
    {
        Track {
            rows: IndexSet::new(alloc),
            shots: Vec::new(alloc),
        }
    }

    // Shows the row of this number from a time on.
    fn show(&mut self, time: u64, number: usize) -> Result<(), FilmError>
        requires track { IsTrack (track_of self.old) }
        ensures track { OnOk result (IsTrack (track_of self.new)) }
        ensures shows { OnOk result (Shows number time (track_of self.old) (track_of self.new)) }
        ensures memory { IfErr result (λ e. e ≡ Memory) }
    {
        let place = insert_number(&mut self.rows, number)?;
        push_shot(&mut self.shots, time, place)?;
        Ok(())
    }

    // How often it changes.
    fn changes(&self) -> usize
        ensures { result ≡ length self.now.shots.items - 1 }
    {
        self.shots.len().saturating_sub(1)
    }
}

impl Reel {
    /// An empty reel of this size.
    pub(crate) fn new(alloc: Global, size: ScreenSize) -> Result<Self, FilmError>
        ensures reel { IfOk result (λ reel. IsReel reel) }
        ensures rows { IfOk result (λ reel. rows_of reel ≡ []) }
        ensures tracks { IfOk result (λ reel. tracks_of reel ≡ replicate size.rows.value no_track) }
        ensures size { IfOk result (λ reel. reel.size ≡ size) }
        ensures time { IfOk result (λ reel. reel.time ≡ 0) }
        ensures memory { IfErr result (λ e. e ≡ Memory) }
    {
        Ok(Reel {
            size,
            rows: IndexSet::new(alloc),
            drawn_rows: Page::new(alloc),
            tracks: empty_tracks(alloc, size.rows.get())?,
            time: 0,
        })
    }

    /// How many rows the screen has at most.
    pub(crate) fn height(&self) -> u16
        ensures { result ≡ self.now.size.rows.value }
    {
        self.size.rows.get()
    }

    /// The time of the film that was reached, in microseconds.
    pub(crate) fn time(&self) -> u64
        ensures { result ≡ self.now.time }
    {
        self.time
    }

    /// Advances the film's time.
    pub(crate) fn wait(&mut self, time: u64)
        ensures { self.new ≡ record self.old { time = in_64_bits (self.old.time + time) } }
    {
        self.time = self.time.saturating_add(time);
    }

    /// Shows these cells in a row of the screen from this time of the film on, in microseconds.
    pub(crate) fn show(
        &mut self,
        alloc: Global,
        row: u16,
        time: u64,
        cells: &[Cell],
        cursor: Option<usize>,
        look: &Look,
    ) -> Result<(), FilmError>
        requires reel { IsReel self.old }
        requires row { row < self.old.size.rows.value }
        ensures reel { OnOk result (IsReel self.new) }
        ensures shows { OnOk result (ShowsRow (λ runs. AreSvgRuns look.now cells.now cursor runs)
            row time self.old self.new) }
        ensures memory { IfErr result (λ e. e ≡ Memory) }
    {
        let number = self.row_number(alloc, cells, cursor, look)?;
        self.tracks[usize::from(row)].show(time, number)?;
        Ok(())
    }

    // The number of a row of cells, which is drawn if it is new.
    fn row_number(
        &mut self,
        alloc: Global,
        cells: &[Cell],
        cursor: Option<usize>,
        look: &Look,
    ) -> Result<usize, FilmError>
        requires drawn { IsDrawn self.old }
        ensures drawn { OnOk result (IsDrawn self.new) }
        ensures grows { IfOk result (λ n. Grows n self.old self.new) }
        ensures row { IfOk result (λ n. IsAt (rows_of self.new) n (λ runs.
            AreSvgRuns look.now cells.now cursor runs)) }
        ensures memory { IfErr result (λ e. e ≡ Memory) }
    {
        let mut page = Page::new(alloc);
        push_svg_row(&mut page, cells, cursor, look)?;
        let mut row = Page::new(alloc);
        row.append(&page)?;
        let (number, new) = insert_row(&mut self.rows, row.into_bytes())?;
        draw_row_if(new, &mut self.drawn_rows, number, &page)?;
        Ok(number)
    }

    /// Fails if the rows are longer than the longest film, or the tracks change too often.
    pub(crate) fn check(&self) -> Result<(), FilmError>
        ensures { IfErr result (λ e. (e ≡ TooLong) × ((LONGEST_FILM < length self.now.drawn_rows)
            ⊎ (LONGEST_FILM < 27 * changes_in (tracks_of self.now)))) }
    {
        check_length(&self.drawn_rows)?;
        check_changes(&self.tracks)
    }

    /// The film. It plays `plays` times, or over and over without this number. Where nothing plays, it is as it is at
    /// the poster's time, or else at its end.
    pub(crate) fn develop(
        self,
        alloc: Global,
        look: &Look,
        plays: Option<u16>,
        poster: Option<u64>,
    ) -> Result<Vec<u8>, FilmError>
        requires reel { IsReel self }
        ensures film { IfOk result (λ bytes. bytes.items ≡ film_bytes look.now self.size.rows.value self.size.cols.value
            (showing plays poster self.time) (rows_of self) (tracks_of self)) }
        ensures page { IfOk result (λ bytes. IsPage bytes.items) }
        ensures safe { IfOk result (λ bytes. IsSafe bytes.items) }
        ensures short { IfOk result (λ bytes. length bytes.items ≤ LONGEST_FILM) }
        ensures fault { IfErr result (λ e. (e ≡ Memory) ⊎ ((e ≡ TooLong) × (LONGEST_FILM < length (film_bytes look.now
            self.size.rows.value self.size.cols.value (showing plays poster self.time) (rows_of self)
            (tracks_of self))))) }
    {
        let mut page = Page::new(alloc);
        push_svg_head(&mut page, self.size.rows.get(), self.size.cols.get(), look)?;
        self.push_times(&mut page, self.showing(plays, poster))?;
        self.push_drawn(&mut page, poster)?;
        page.markup(Tag::SvgFoot)?;
        check_length(&page)?;
        Ok(page.into_bytes())
    }

    // How the film is shown that plays this often and has this poster.
    fn showing(&self, plays: Option<u16>, poster: Option<u64>) -> Showing
        ensures { result ≡ showing plays poster self.now.time }
    {
        Showing {
            length: self.time.saturating_add(LAST),
            plays,
            poster,
        }
    }

    // Appends the film's length, how often it plays, and the key frames of its tracks.
    fn push_times(&self, page: &mut Page, showing: Showing) -> Result<(), AllocError>
        ensures { OnOk result (page.new ≡ page.old ++ times_bytes self.now.size.cols.value showing
            (tracks_of self.now)) }
    {
        page.markup(Tag::FilmLength)?;
        push_decimal(page, showing.length, 1_000_000)?;
        page.markup(Tag::FilmLengthEnd)?;
        push_plays(page, showing.plays)?;
        push_all_keyframes(page, self.size.cols.get(), &self.tracks, showing)?;
        page.markup(Tag::Still)
    }

    // Appends the rows that are drawn and the tracks.
    fn push_drawn(&self, page: &mut Page, poster: Option<u64>) -> Result<(), AllocError>
        ensures { OnOk result (page.new ≡ page.old ++ drawn_bytes self.now.drawn_rows
            (numbered (track_bytes self.now.size.cols.value poster) 0 (tracks_of self.now))) }
    {
        page.markup(Tag::DefsStart)?;
        page.append(&self.drawn_rows)?;
        page.markup(Tag::DefsEnd)?;
        push_tracks(page, self.size.cols.get(), poster, &self.tracks)
    }
}

// Returns `count` empty tracks.
fn empty_tracks(alloc: Global, count: u16) -> Result<Vec<Track>, FilmError>
    ensures tracks { IfOk result (λ tracks. map track_of tracks.items ≡ replicate count no_track) }
    ensures memory { IfErr result (λ e. e ≡ Memory) }
{
    let mut tracks = Vec::new(alloc);
    for _ in 0..count {
        tracks.push(Track::new(alloc))?;
    }
    Ok(tracks)
}

// Inserts a row, given as its bytes. Returns its number and whether it is new.
fn insert_row(rows: &mut IndexSet<Vec<u8>>, row: Vec<u8>) -> Result<(usize, bool), FilmError>
    ensures inserts { IfOk result (λ r. Inserts (map (λ v. v.items) rows.old.keys) (map (λ v. v.items) rows.new.keys)
        row.items r.0 r.1) }
    ensures memory { IfErr result (λ e. e ≡ Memory) }
{
    Ok(rows.insert_full(row)?)
}

// Inserts the number of a row, unless it is there, and returns its place.
fn insert_number(numbers: &mut IndexSet<usize>, number: usize) -> Result<usize, FilmError>
    ensures place { IfOk result (TakesPlace number numbers.old.keys numbers.new.keys) }
    ensures memory { IfErr result (λ e. e ≡ Memory) }
{
    Ok(numbers.insert_full(number)?.0)
}

// Shows the row at this place of a track from this time on, unless it is shown already.
fn push_shot(shots: &mut Vec<Shot>, time: u64, place: usize) -> Result<(), AllocError>
    ensures { OnOk result (IsShown shots.old.items shots.new.items time place) }
{
    match shots.last() {
        Some(shot) if shot.place == place => Ok(()),
        _ => {
            shots.push(Shot { time, place })?;
            Ok(())
        }
    }
}

// Fails if the page is longer than the longest film.
fn check_length(page: &Page) -> Result<(), FilmError>
    ensures short { OnOk result (length page.now ≤ LONGEST_FILM) }
    ensures long { IfErr result (λ e. (e ≡ TooLong) × (LONGEST_FILM < length page.now)) }
{
    if page.len() > LONGEST_FILM {
        return Err(FilmError::TooLong);
    }
    Ok(())
}

// Fails if the tracks change so often that the film gets longer than the longest one.
fn check_changes(tracks: &[Track]) -> Result<(), FilmError>
    ensures { IfErr result (λ e. (e ≡ TooLong) × (LONGEST_FILM < 27 * changes_in (map track_of tracks.now))) }
{
    let mut changes: usize = 0;
    for track in tracks {
        changes = changes.saturating_add(track.changes());
    }
    if changes > LONGEST_FILM / CHANGE_LEN {
        return Err(FilmError::TooLong);
    }
    Ok(())
}

// Draws a row if `on`.
fn draw_row_if(on: bool, page: &mut Page, number: usize, row: &Page) -> Result<(), AllocError>
    ensures { OnOk result (page.new ≡ page.old ++ (if on then drawn_row number row.now else [])) }
{
    if on {
        draw_row(page, number, row)
    } else {
        Ok(())
    }
}

// Draws a row, by its number.
fn draw_row(page: &mut Page, number: usize, row: &Page) -> Result<(), AllocError>
    ensures { OnOk result (page.new ≡ page.old ++ drawn_row number row.now) }
{
    page.numbers(&[(Tag::RowName, in_32_bits(number))])?;
    page.markup(Tag::RowNameEnd)?;
    page.append(row)?;
    page.markup(Tag::RowEnd)?;
    page.end_row()
}

// Appends the tracks of a film that has `cols` columns.
fn push_tracks(
    page: &mut Page,
    cols: u16,
    poster: Option<u64>,
    tracks: &[Track],
) -> Result<(), AllocError>
    ensures { OnOk result (page.new ≡ page.old ++ numbered (track_bytes cols poster) 0 (map track_of tracks.now)) }
{
    for (number, track) in tracks.iter().enumerate() {
        push_track(page, cols, poster, number, track)?;
    }
    Ok(())
}

// Appends a track: its rows, side by side.
fn push_track(
    page: &mut Page,
    cols: u16,
    poster: Option<u64>,
    number: usize,
    track: &Track,
) -> Result<(), AllocError>
    ensures { OnOk result (page.new ≡ page.old ++ track_bytes cols poster number (track_of track.now)) }
{
    let shown = still_place(cols, poster, &track.shots);
    page.numbers(&[(Tag::Track, in_32_bits(number)), (Tag::TrackPlace, shown)])?;
    page.markup(Tag::TrackRows)?;
    use_rows(
        page,
        cols,
        in_32_bits(number).saturating_mul(ROW_HEIGHT),
        &track.rows,
    )?;
    page.markup(Tag::TrackEnd)
}

// Appends rows that are drawn, by their numbers, side by side, `y` pixels from the top.
fn use_rows(page: &mut Page, cols: u16, y: u32, rows: &IndexSet<usize>) -> Result<(), AllocError>
    ensures { OnOk result (page.new ≡ page.old ++ numbered (used_row cols y) 0 rows.now.keys) }
{
    for place in 0..rows.len() {
        use_row(page, cols, y, place, number_at(rows, place))?;
    }
    Ok(())
}

// The number at a place of a track.
fn number_at(rows: &IndexSet<usize>, place: usize) -> usize
    ensures { result ≡ slice_index rows.now.keys place }
{
    match rows.get_index(place) {
        Some(number) => *number,
        None => 0,
    }
}

// Appends a row that is drawn, at a place, `y` pixels from the top.
fn use_row(page: &mut Page, cols: u16, y: u32, place: usize, row: usize) -> Result<(), AllocError>
    ensures { OnOk result (page.new ≡ page.old ++ used_row cols y place row) }
{
    page.numbers(&[
        (Tag::Use, in_32_bits(row)),
        (Tag::X, place_of(cols, place)),
        (Tag::Y, y),
    ])?;
    page.markup(Tag::Close)
}

// Appends how often a film plays.
fn push_plays(page: &mut Page, plays: Option<u16>) -> Result<(), AllocError>
    ensures { OnOk result (page.new ≡ page.old ++ plays_bytes plays) }
{
    match plays {
        None => page.markup(Tag::Endless),
        Some(plays) => {
            page.number(u32::from(plays.max(1)))?;
            page.markup(Tag::Forwards)
        }
    }
}

// Appends the key frames of each track that changes, in a film that is shown in this way.
fn push_all_keyframes(
    page: &mut Page,
    cols: u16,
    tracks: &[Track],
    showing: Showing,
) -> Result<(), AllocError>
    ensures { OnOk result (page.new ≡ page.old ++ numbered (track_times cols showing) 0 (map track_of tracks.now)) }
{
    for (number, track) in tracks.iter().enumerate() {
        push_keyframes_if(page, cols, number, &track.shots, showing)?;
    }
    Ok(())
}

// Appends the key frames of a track, if it changes.
fn push_keyframes_if(
    page: &mut Page,
    cols: u16,
    number: usize,
    shots: &[Shot],
    showing: Showing,
) -> Result<(), AllocError>
    ensures { OnOk result (page.new ≡ page.old
        ++ (if nat_lt 1 (length shots.now) then keyframes cols showing number shots.now else [])) }
{
    if shots.len() > 1 {
        push_keyframes(page, cols, number, shots, showing)
    } else {
        Ok(())
    }
}

// Appends the key frames of a track, in a film that is shown in this way.
fn push_keyframes(
    page: &mut Page,
    cols: u16,
    number: usize,
    shots: &[Shot],
    showing: Showing,
) -> Result<(), AllocError>
    ensures { OnOk result (page.new ≡ page.old ++ keyframes cols showing number shots.now) }
{
    page.numbers(&[(Tag::Keyframes, in_32_bits(number))])?;
    page.markup(Tag::KeyframesStart)?;
    push_shots(page, cols, shots, showing.length)?;
    push_end(page, cols, shots, showing.plays)?;
    page.numbers(&[
        (Tag::KeyframesEnd, in_32_bits(number)),
        (Tag::Animation, in_32_bits(number)),
    ])?;
    page.markup(Tag::AnimationEnd)
}

// Appends when each of these shots begins in a film of this length, and what is shown then.
fn push_shots(
    page: &mut Page,
    cols: u16,
    shots: &[Shot],
    film_length: u64,
) -> Result<(), AllocError>
    ensures { OnOk result (page.new ≡ page.old ++ flat_map (shot_bytes cols film_length) shots.now) }
{
    for shot in shots {
        push_time(page, cols, *shot, film_length)?;
    }
    Ok(())
}

// Appends what is shown at the end of a film that doesn't play over and over.
fn push_end(
    page: &mut Page,
    cols: u16,
    shots: &[Shot],
    plays: Option<u16>,
) -> Result<(), AllocError>
    ensures { OnOk result (page.new ≡ page.old ++ end_bytes plays cols shots.now) }
{
    match plays {
        None => Ok(()),
        Some(_) => push_last(page, cols, shots),
    }
}

// Appends that the last shot is shown at the end.
fn push_last(page: &mut Page, cols: u16, shots: &[Shot]) -> Result<(), AllocError>
    ensures { OnOk result (page.new ≡ page.old ++ last_bytes cols shots.now) }
{
    page.markup(Tag::AtEnd)?;
    page.numbers(&[(Tag::Percent, last_place(cols, shots))])?;
    page.markup(Tag::PercentEnd)
}

// Appends when a shot begins in a film of this length, and what is shown then.
fn push_time(page: &mut Page, cols: u16, shot: Shot, film_length: u64) -> Result<(), AllocError>
    ensures { OnOk result (page.new ≡ page.old ++ shot_bytes cols film_length shot) }
{
    push_decimal(page, part_of(shot.time, film_length), 100_000)?;
    page.numbers(&[(Tag::Percent, place_of(cols, shot.place))])?;
    page.markup(Tag::PercentEnd)
}

// Where the row at a place of a track is, in pixels from the left.
fn place_of(cols: u16, place: usize) -> u32
    ensures { result ≡ place_in cols place }
{
    let width = u64::from(cols) * u64::from(COL_WIDTH);
    u32::try_from((place as u64).saturating_mul(width)).unwrap_or(u32::MAX)
}

// Where the row is that is shown where nothing plays, in pixels from the left.
fn still_place(cols: u16, poster: Option<u64>, shots: &[Shot]) -> u32
    ensures { result ≡ still_place_in cols poster shots.now }
{
    match poster {
        None => last_place(cols, shots),
        Some(time) => place_at(cols, time, shots),
    }
}

// Where the row is that is shown at a time, in pixels from the left.
fn place_at(cols: u16, time: u64, shots: &[Shot]) -> u32
    ensures { result ≡ place_at_in cols time shots.now }
{
    match shots.get(shots_until(shots, time).saturating_sub(1)) {
        Some(shown) => place_of(cols, shown.place),
        None => 0,
    }
}

// How many shots there are before the first one that comes later than a time.
fn shots_until(shots: &[Shot], time: u64) -> usize
    ensures count { result ≡ shots_until_in time shots.now }
    ensures within { result ≤ length shots.now }
{
    for (i, shot) in shots.iter().enumerate() {
        if shot.time > time {
            return i;
        }
    }
    shots.len()
}

// Where the row is that is shown last, in pixels from the left.
fn last_place(cols: u16, shots: &[Shot]) -> u32
    ensures { result ≡ last_place_in cols shots.now }
{
    match shots.last() {
        Some(shot) => place_of(cols, shot.place),
        None => 0,
    }
}

// A count, or `u32::MAX` if that is less.
fn in_32_bits(count: usize) -> u32
    ensures { result ≡ in_32_bits_of count }
{
    u32::try_from(count).unwrap_or(u32::MAX)
}

// A time as a part of a length, in hundred-thousandths of a percent.
fn part_of(time: u64, length: u64) -> u64
    ensures { result ≡ in_64_bits (time * 10000000 / max length 1) }
{
    let parts = u128::from(time) * 10_000_000 / u128::from(length.max(1));
    u64::try_from(parts).unwrap_or(u64::MAX)
}

/// Appends `value / unit` as a decimal. The unit is a power of ten.
pub fn push_decimal(page: &mut Page, value: u64, unit: u32) -> Result<(), AllocError>
    ensures adds { OnOk result (Adds page.old page.new []) }
    ensures bytes { OnOk result ((places : ℕ) → unit ≡ 10 ^ places
        → page.new ≡ page.old ++ decimal_point places value) }
{
    let parts = u64::from(unit).max(1);
    page.number(whole_of(value, parts))?;
    page.markup(Tag::Point)?;
    let mut unit = parts;
    while unit > 1 {
        unit /= 10;
        page.digit((value / unit.max(1) % 10) as u8)?;
    }
    Ok(())
}

// The quotient `value / parts`, or `u32::MAX` if that is less.
fn whole_of(value: u64, parts: u64) -> u32
    requires { 0 < parts }
    ensures { result ≡ in_32_bits_of (value / parts) }
{
    u32::try_from(value / parts).unwrap_or(u32::MAX)
}
