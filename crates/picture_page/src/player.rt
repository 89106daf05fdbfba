//! The fixed parts of a page that plays a recording.

/// What comes before the page's title. A browser runs the one script whose checksum is in it.
pub const PLAYER_HEAD: &[u8] = br#"<!DOCTYPE html>
<html lang="en"><head><meta charset="utf-8"><meta name="viewport" content="width=device-width, initial-scale=1">
<meta http-equiv="Content-Security-Policy" content="default-src 'none'; style-src 'unsafe-inline';
script-src 'sha256-CD/E0qb+5oF+xThB1ogw44T6414MVBWlOuQhmvS8oLQ='">
<title>"#;

/// What comes between the title and the heading.
pub const PLAYER_STYLE: &[u8] = br#"</title>
<style>
:root { color-scheme: light dark; --fonts: ui-monospace, Menlo, Consolas, "DejaVu Sans Mono", monospace; }
body { margin: 1rem; font: 1rem/1.4 system-ui, sans-serif; background: Canvas; color: CanvasText; }
h1 { margin: 0 0 .5rem; font-size: 1rem; }
h1:empty, h1:has(> bdi:empty) { display: none; }
#player { display: grid; grid-template-columns: minmax(0, 1fr); container-type: inline-size; --em: .602;
  --tallest: min(1.4rem, (100vh - 11rem) / var(--rows) / 1.2); }
#screen { grid-area: 1 / 1; justify-self: center; width: max-content; max-width: 100%; box-sizing: border-box;
  overflow: auto; min-height: calc(var(--rows) * 1lh); padding: .4rem; border: 1px solid GrayText; border-radius: .4rem;
  font-family: var(--fonts); line-height: normal; font-variant-ligatures: none; text-size-adjust: none;
  font-size: max(.25rem, min(var(--tallest), (100cqw - 1rem) / var(--cols) / var(--em))); }
#screen > div { white-space: pre; direction: ltr; unicode-bidi: bidi-override; }
#screen > div:empty::before { content: " "; }
#start { grid-area: 1 / 1; place-self: center; --size: clamp(2.5rem, 14cqw, 5rem); width: var(--size);
  height: var(--size); padding: 0; border: 2px solid #fff; border-radius: 50%; background: rgba(0, 0, 0, .7);
  cursor: pointer; }
#start[hidden] { display: none; }
#start::before { content: ""; display: block; width: 36%; height: 44%; margin: auto; background: #fff;
  transform: translateX(12%); clip-path: polygon(0 0, 100% 50%, 0 100%); }
#player:fullscreen { background: Canvas; color: CanvasText; padding: .5rem; align-content: center; overflow: auto;
  --tallest: (100vh - 8rem) / var(--rows) / 1.28; }
.framed body { margin: 0; }
.framed h1, .framed #markers, .framed details, .framed #search, .framed #aloud { display: none; }
.framed #player { padding: .25rem; --tallest: (100vh - 6.6rem) / var(--rows) / 1.28; }
.framed #controls { font-size: .875rem; margin-bottom: 0; }
@media (max-width: 36rem) { .framed label, .framed #link { display: none; } }
#controls { display: flex; flex-wrap: wrap; gap: .5rem .75rem; align-items: center; margin: .4rem 0; min-width: 0; }
#controls[hidden] { display: none; }
#track { position: relative; flex: 1 0 100%; padding-top: .5rem; }
#bar { display: block; width: 100%; height: 1.25rem; margin: 0; }
#ticks > b { position: absolute; top: 0; width: .4rem; height: .6rem; margin-left: -.2rem; border-radius: .2rem;
  background: #c60; cursor: pointer; }
#play { min-width: 5rem; font-weight: bold; }
#time { font-variant-numeric: tabular-nums; }
#markers { margin: .25rem 0; padding-left: 1.5rem; max-height: 10rem; overflow: auto; }
#markers button { border: 0; padding: 0; background: none; color: LinkText; font: inherit; text-align: left;
  text-decoration: underline; cursor: pointer; }
button, select, input { font: inherit; }
#controls button, select, #text { min-height: 2.1rem; padding: 0 .6rem; border: 1px solid GrayText;
  border-radius: .35rem; background: Canvas; color: CanvasText; }
#controls button, select { cursor: pointer; }
#controls button:hover { background: ButtonFace; }
#controls [aria-pressed=true] { background: CanvasText; color: Canvas; }
:focus-visible { outline: 2px solid Highlight; outline-offset: 1px; }
kbd { border: 1px solid GrayText; border-radius: .2rem; padding: 0 .25rem; }
.aside { position: absolute; left: -200vw; width: 1px; overflow: hidden; white-space: pre; }
</style></head>
<body>
<h1><bdi>"#;

/// What comes between the screen and the markers.
pub const PLAYER_CONTROLS: &[u8] = br##"</div>
<button id="start" type="button" aria-label="Play" hidden></button>
<div id="controls" hidden>
<span id="track"><input id="bar" type="range" min="0" max="0" step="any" value="0" aria-label="Time"
><span id="ticks" aria-hidden="true"></span></span>
<button id="play" type="button">Play</button>
<span id="time"></span>
<label>Speed <select id="speed"></select></label>
<label id="short" hidden><input id="idle" type="checkbox" checked> <span id="most"></span></label>
<form id="search" role="search"><input id="text" type="search" size="12" aria-label="Text to find in the recording"
placeholder="Find a text"> <button>Find</button> <output id="found"></output></form>
<button id="aloud" type="button" aria-pressed="false">Read changes aloud</button>
<button id="full" type="button" hidden>Full screen</button>
<a id="link" href="#t=0">Link to this moment</a>
<details><summary>Keys</summary>
<kbd>Space</kbd> play or pause. <kbd>,</kbd> <kbd>.</kbd> a moment back or on. <kbd>&larr;</kbd> <kbd>&rarr;</kbd>
5 seconds, with <kbd>Shift</kbd> a tenth. <kbd>0</kbd> to <kbd>9</kbd> tenths of the length. <kbd>Home</kbd>
<kbd>End</kbd> its ends. <kbd>[</kbd> <kbd>]</kbd> or <kbd>p</kbd> <kbd>n</kbd> markers. <kbd>&lt;</kbd>
<kbd>&gt;</kbd> speed. <kbd>f</kbd> full screen.
</details>
<span id="status" class="aside" role="status"></span>
</div>
<noscript>This is one moment of a recording. A script plays it.</noscript>
<ol id="markers">
"##;

/// The script, and what ends the page.
pub const PLAYER_SCRIPT: &[u8] = br##"</template>
<script>
"use strict";
// A recording is drawn rows and moments. Times are in microseconds: those of the recording, or as it is played.
const at = (id) => document.getElementById(id);
const micros = (text) => Math.round(parseFloat(text) * 1e6);
const player = at("player"), said = player.dataset, bar = at("bar");
const DRAWN = [...at("rows").content.children];
const LINES = at("moments").content.textContent.trim().split("\n");
const TIMES = LINES.map(micros);
const LENGTH = Math.max(micros(said.length), TIMES[TIMES.length - 1]);
const IDLE = said.idle ? micros(said.idle) : Infinity;
const MARKERS = [...at("markers").children].map((item) => item.firstElementChild);
const MARKS = MARKERS.map((button) => micros(button.value));
const SPEEDS = [...new Set([0.25, 0.5, 1, 1.5, 2, 4, 8, 16, +said.speed])].sort((a, b) => a - b);
const isFramed = window.parent !== window;
const REORDERING = /[\u061c\u200e\u200f\u202a-\u202e\u2066-\u2069]/;

// The last place of an ascending list that isn't above a value.
function lastUpTo(list, value) {
  let low = 0, high = list.length;
  while (low < high) {
    const middle = (low + high) >> 1;
    if (list[middle] <= value) low = middle + 1;
    else high = middle;
  }
  return low - 1;
}

// The numbers of the rows of a moment. A line has all of them after =, or after : each that differs and its number.
let numbers = [], reached = -1;
function numbersAt(moment) {
  let from = moment;
  while (!LINES[from].includes("=")) from -= 1;
  if (reached >= from && reached <= moment) from = reached + 1;
  for (; from <= moment; from += 1) {
    const [, sign, text] = /([=:]) (.*)/.exec(LINES[from]);
    const list = text.split(" ").map(Number);
    if (sign === "=") numbers = list;
    else for (let i = 0; i + 1 < list.length; i += 2) numbers[list[i]] = list[i + 1];
  }
  reached = moment;
  return numbers;
}

// A row for the screen. A character that turns the order of others is kept from them.
function drawn(number) {
  const row = DRAWN[number].cloneNode(true);
  if (!REORDERING.test(row.textContent)) return row;
  const walker = document.createTreeWalker(row, NodeFilter.SHOW_TEXT), texts = [];
  while (walker.nextNode()) texts.push(walker.currentNode);
  for (const text of texts) {
    text.replaceWith(...text.data.split(new RegExp(`(${REORDERING.source})`)).map((part) => {
      if (!REORDERING.test(part)) return part;
      const kept = document.createElement("bdi");
      kept.textContent = part;
      return kept;
    }));
  }
  return row;
}

let shown = [];
function show(moment) {
  const screen = at("screen"), list = numbersAt(moment), changed = [];
  while (screen.children.length > list.length) screen.lastElementChild.remove();
  while (screen.children.length < list.length) screen.append(document.createElement("div"));
  list.forEach((number, row) => {
    if (shown[row] === number) return;
    screen.children[row].replaceWith(drawn(number));
    changed.push(DRAWN[number].textContent.trimEnd());
  });
  shown = [...list];
  sayAloud(changed);
}

// The moment that is shown at first: that of a time before the end, or else the last one that has at least half as many
// rows with text as the fullest one.
function posterMoment() {
  const time = micros(said.poster);
  if (time < micros(said.length)) return Math.max(lastUpTo(TIMES, time), 0);
  const isText = DRAWN.map((row) => row.textContent.trim() !== "");
  const counts = LINES.map((_, i) => numbersAt(i).filter((number) => isText[number]).length);
  const most = counts.reduce((one, other) => Math.max(one, other), 0);
  return counts.findLastIndex((count) => 2 * count >= most);
}

// ---- time

let starts = [], end = 0, position = 0, moment = 0;
let isPlaying = false, isFresh = true, hasPlayed = false, speed = +said.speed, began = 0;

// When each moment begins as it is played, with none longer than the idle time.
function lay(idle) {
  starts = [0];
  for (let i = 1; i < TIMES.length; i += 1) starts[i] = starts[i - 1] + Math.min(TIMES[i] - TIMES[i - 1], idle);
  end = starts[starts.length - 1] + Math.min(LENGTH - TIMES[TIMES.length - 1], idle);
  bar.max = end / 1e6;
  drawTicks();
}

// The place, as it is played, of a time of the recording.
function placeOf(time) {
  const i = Math.max(lastUpTo(TIMES, time), 0);
  const most = i + 1 < starts.length ? starts[i + 1] : end;
  return Math.max(Math.min(starts[i] + time - TIMES[i], most), 0);
}

function clock(time) {
  const all = Math.floor(time / 1e6), two = (n) => String(n).padStart(2, "0");
  const hours = Math.floor(all / 3600), minutes = Math.floor(all / 60) % 60;
  return `${hours ? `${hours}:${two(minutes)}` : minutes}:${two(all % 60)}`;
}

function tell() {
  const time = Math.min(TIMES[moment] + Math.max(position - starts[moment], 0), LENGTH);
  at("time").textContent = `${clock(position)} / ${clock(end)}`;
  at("time").title = `${(time / 1e6).toFixed(3)} s of the recording`;
  at("link").href = `#t=${Math.floor(time) / 1e6}`;
  bar.value = position / 1e6;
  bar.setAttribute("aria-valuetext", `${clock(position)} of ${clock(end)}`);
}

// Goes to a place, at a moment that begins there if several do.
function go(place, which) {
  position = Math.max(Math.min(place, end), 0);
  moment = which ?? Math.max(lastUpTo(starts, position), 0);
  began = performance.now() - position / 1e3 / speed;
  isFresh = false;
  at("start").hidden = true;
  show(moment);
  tell();
}

function goToTime(time) { go(placeOf(time), Math.max(lastUpTo(TIMES, time), 0)); }

function step(by) {
  pause();
  const next = Math.max(Math.min(isFresh ? 0 : moment + by, starts.length - 1), 0);
  go(starts[next], next);
}

function play() {
  if (isFresh || position >= end) go(0);
  isPlaying = hasPlayed = true;
  at("start").hidden = true;
  at("play").textContent = "Pause";
  began = performance.now() - position / 1e3 / speed;
  requestAnimationFrame(tick);
}

function pause() {
  isPlaying = false;
  at("play").textContent = "Play";
}

function flip() {
  if (isPlaying) pause();
  else play();
}

function tick() {
  if (!isPlaying) return;
  const place = (performance.now() - began) * 1e3 * speed;
  if (place >= end) {
    go(end);
    pause();
    return;
  }
  position = place;
  const next = lastUpTo(starts, place);
  if (next !== moment) show(moment = next);
  tell();
  requestAnimationFrame(tick);
}

function setSpeed(index) {
  const chosen = Math.max(Math.min(index, SPEEDS.length - 1), 0);
  speed = SPEEDS[chosen];
  at("speed").selectedIndex = chosen;
  began = performance.now() - position / 1e3 / speed;
}

// ---- markers

function drawTicks() {
  at("ticks").replaceChildren(...MARKERS.map((button, i) => {
    const tick = document.createElement("b");
    tick.style.left = `${100 * (end ? placeOf(MARKS[i]) / end : 0)}%`;
    tick.title = button.textContent;
    tick.onclick = () => goToTime(MARKS[i]);
    return tick;
  }));
}

function mark(by) {
  const places = MARKS.map(placeOf);
  const here = isPlaying && by < 0 ? position - 1e6 : position;
  const near = by > 0 ? places.findIndex((place) => place > here) : places.findLastIndex((place) => place < here);
  if (near < 0) return;
  goToTime(MARKS[near]);
  at("status").textContent = MARKERS[near].textContent;
}

// ---- search in time: the moments at which a text comes to the screen

function find(by) {
  const text = at("text").value.toLowerCase();
  if (!text) return;
  const has = DRAWN.map((row) => row.textContent.toLowerCase().includes(text));
  const found = [];
  for (let i = 0, before = false; i < LINES.length; i += 1) {
    const is = numbersAt(i).some((number) => has[number]);
    if (is && !before) found.push(i);
    before = is;
  }
  const here = isFresh ? -1 : moment;
  let near = by > 0 ? found.findIndex((i) => i > here) : found.findLastIndex((i) => i < here);
  if (near < 0) near = by > 0 ? 0 : found.length - 1;
  at("found").textContent = found.length ? `${near + 1} of ${found.length}` : "not there";
  if (!found.length) return;
  pause();
  go(starts[found[near]], found[near]);
}

// ---- changes that are read aloud

let aloud = null;
function sayAloud(changed) {
  if (!aloud) return;
  aloud.unsaid = changed.filter((text) => text);
  aloud.due ??= setTimeout(() => {
    aloud.due = null;
    aloud.place.textContent = aloud.unsaid.join("\n");
  }, 1000);
}

function flipAloud() {
  const is = at("aloud").getAttribute("aria-pressed") !== "true";
  at("aloud").setAttribute("aria-pressed", is);
  if (aloud) clearTimeout(aloud.due);
  aloud?.place.remove();
  aloud = null;
  if (!is) return;
  const place = document.createElement("div");
  place.className = "aside";
  place.setAttribute("aria-live", "polite");
  player.append(place);
  aloud = { place, due: null, unsaid: [] };
}

// ---- keys

const KEYS = {
  " ": flip,
  ".": () => step(1),
  ",": () => step(-1),
  ArrowRight: (shift) => go(position + (shift ? end / 10 : 5e6)),
  ArrowLeft: (shift) => go(position - (shift ? end / 10 : 5e6)),
  Home: () => go(0),
  End: () => go(end),
  "]": () => mark(1),
  "[": () => mark(-1),
  n: () => mark(1),
  p: () => mark(-1),
  ">": () => setSpeed(SPEEDS.indexOf(speed) + 1),
  "<": () => setSpeed(SPEEDS.indexOf(speed) - 1),
  f: flipFull,
};

function flipFull() {
  if (document.fullscreenElement) document.exitFullscreen();
  else player.requestFullscreen?.()?.catch(() => {}); // a frame may forbid it
}

// What a key does. A sign may be typed with AltGr or Option. Where a layout lacks a letter or a digit, the place of its
// key counts.
function meant({ key, code, altKey, shiftKey }) {
  if (altKey) return "[]<>".includes(key) ? KEYS[key] : undefined;
  const digit = /^[0-9]$/.test(key) ? key : !KEYS[key] && !shiftKey && /^(?:Digit|Numpad)([0-9])$/.exec(code)?.[1];
  if (digit) return () => go(end * +digit / 10);
  return KEYS[key] ?? (/^[ -~]$/.test(key) ? undefined : KEYS[/^Key([FNP])$/.exec(code)?.[1].toLowerCase()]);
}

function press(event) {
  const { key, target, ctrlKey, altKey, metaKey } = event;
  if ((ctrlKey && !altKey) || metaKey || target.closest("#text, select")) return;
  if (key === " " && target.closest("button, summary, #idle")) return;
  const does = meant(event);
  if (!does) return;
  event.preventDefault();
  does(event.shiftKey);
  if (!isPlaying) at("status").textContent = `${clock(position)} of ${clock(end)}`;
}

// The address may name a time of the recording, and ask that it plays: #t=12.5, #t=1:30, #t=12.5&play
function goToAddress() {
  const asked = new URLSearchParams(location.hash.slice(1));
  const named = /^(?:(?:(\d+):)?(\d+):)?(\d+(?:\.\d+)?)$/.exec(asked.get("t") ?? "");
  if (named) {
    const [hours, minutes, seconds] = named.slice(1).map((part) => +(part ?? 0));
    pause();
    goToTime(micros(3600 * hours + 60 * minutes + seconds));
    at("start").hidden = hasPlayed || !isFramed;
  }
  if (asked.has("play")) play();
}

// How wide a column is, as a part of the size of letters. So the screen is as wide as the page, in any font.
function measure() {
  const probe = document.createElement("span");
  probe.className = "aside";
  probe.style.width = "auto";
  probe.textContent = "0".repeat(100);
  at("screen").append(probe);
  const wide = probe.getBoundingClientRect().width / 100 / parseFloat(getComputedStyle(probe).fontSize);
  probe.remove();
  if (wide > 0) player.style.setProperty("--em", Math.ceil(wide * 1e4 + 10) / 1e4);
}

function copied(event) {
  const selected = getSelection();
  if (!at("screen").contains(selected.anchorNode)) return;
  event.clipboardData.setData("text/plain", String(selected).replace(/ +$/gm, ""));
  event.preventDefault();
}

// A click on the screen plays or pauses, unless a text is or was selected.
function watchScreen() {
  let wasSelected = false;
  at("screen").onmousedown = () => { wasSelected = !getSelection().isCollapsed; };
  at("screen").onclick = () => { if (!wasSelected && getSelection().isCollapsed) flip(); };
}

function begin() {
  if (isFramed) {
    document.documentElement.className = "framed";
    at("link").target = "_blank"; // the page itself has all controls
  }
  document.title ||= "Recording";
  measure();
  at("speed").append(...SPEEDS.map((each) => new Option(`${each}\u00d7`, each)));
  setSpeed(SPEEDS.indexOf(speed));
  at("short").hidden = IDLE === Infinity;
  at("most").textContent = `Shorten pauses to ${IDLE / 1e6} s`;
  lay(IDLE);
  show(posterMoment());
  tell();
  at("play").onclick = flip;
  at("start").onclick = () => { play(); at("play").focus({ preventScroll: true }); };
  at("full").onclick = flipFull;
  watchScreen();
  at("speed").onchange = () => setSpeed(at("speed").selectedIndex);
  at("idle").onchange = () => { lay(at("idle").checked ? IDLE : Infinity); go(starts[moment], moment); };
  at("aloud").onclick = flipAloud;
  at("search").onsubmit = (event) => { event.preventDefault(); find(1); };
  at("text").onkeydown = (event) => {
    if (event.key === "Enter" && event.shiftKey) { event.preventDefault(); find(-1); }
  };
  bar.oninput = () => go(bar.value * 1e6);
  MARKERS.forEach((button, i) => { button.onclick = () => goToTime(MARKS[i]); });
  MARKERS.forEach((button, i) => button.before(`${clock(MARKS[i])} `));
  document.onkeydown = press;
  document.addEventListener("copy", copied);
  onhashchange = goToAddress;
  at("controls").hidden = false;
  at("start").hidden = !end;
  at("full").hidden = !document.fullscreenEnabled;
  goToAddress();
}

begin();
</script>
</body></html>
"##;
