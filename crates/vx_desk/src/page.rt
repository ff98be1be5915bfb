//! The page's fixed parts: what stands before the data, and what behind them, each in pieces.

ghost use Rattle.std.specs.Prelude.{◌≡◌, ◌++◌, OnOk};
ghost use Rattle.vx_desk.specs.Page.{head, tail};

use vx_base::{Bytes, OutOfMemory};
use vx_markup::push_pieces;

const HEAD: [&str; 2] = [
    "<!DOCTYPE html>
<html lang=\"en\">
<head>
<meta charset=\"utf-8\">
<meta http-equiv=\"Content-Security-Policy\" content=\"default-src 'none'; script-src 'sha256-3XS49Y/9BJQ+PnJkezdCshCG4/jWR1/2hBFy0zI0JgE='; style-src 'sha256-IlPBEg41Y9r3iHmAdUa+O/30crfYd+VL3Tl5twxIMOk='; base-uri 'none'; form-action 'none'; require-trusted-types-for 'script'; trusted-types 'none'\">
<meta name=\"viewport\" content=\"width=device-width, initial-scale=1\">
<meta name=\"referrer\" content=\"no-referrer\">
<title>Adjudication desk</title>
<style>
:root {
  color-scheme: light;
  --ink: #1b1f24;
  --quiet: #4d5761;
  --ground: #eceff2;
  --sheet: #ffffff;
  --line: #8b949e;
  --hair: #ccd2d8;
  --accent: #0b4f9e;
  --marked: #0b4f9e;
  --marginal: #a8321a;
  --done: #14613a;
  --done-ground: #e6f3eb;
  --alert: #7a2e00;
  --alert-ground: #fdf0e3;
}
* { box-sizing: border-box; }
[hidden] { display: none !important; }
html { font: 16px/1.45 system-ui, \"Segoe UI\", \"DejaVu Sans\", sans-serif; color: var(--ink); background: var(--ground); }
body { margin: 0; }
h1, h2, h3, p, ul, ol, fieldset { margin: 0; padding: 0; }
h1 { font-size: 1.1rem; font-weight: 650; }
h2 { font-size: 1.3rem; line-height: 1.25; font-weight: 650; overflow-wrap: anywhere; }
h3 { font-size: 1rem; font-weight: 650; }
bdi { overflow-wrap: anywhere; }
.quiet { color: var(--quiet); }
:focus-visible { outline: 3px solid #c75c00; outline-offset: 2px; }
h2:focus { outline: none; }

header { display: flex; flex-wrap: wrap; gap: .5rem 2.5rem; align-items: center; padding: .6rem 1.25rem; background: #1f2933; color: #fff; }
header .of { flex: 1 1 16rem; min-width: 0; }
header .of p { color: #d5dce3; overflow-wrap: anywhere; }
header .progress { min-width: 16rem; }
header progress { width: 100%; height: .6rem; accent-color: #7fc49b; }
header label { font-weight: 600; }

main { max-width: 100rem; margin: 0 auto; padding: 1rem 1.25rem; display: grid; gap: 1rem; }
section, .panel { background: var(--sheet); border: 1px solid var(--hair); border-radius: 4px; padding: .9rem 1.1rem; min-width: 0; }
section.bare { background: none; border: 0; padding: 0; display: grid; gap: .75rem; }
.alert { background: var(--alert-ground); border: 1px solid #d9a066; border-left: 5px solid var(--alert); border-radius: 4px; padding: .6rem .9rem; }
.alert li { margin-left: 1.2rem; }
summary { font-weight: 600; cursor: pointer; }
.notes { display: grid; gap: .4rem; }
.notes:not(:has(> :not([hidden]))) { display: none; }
.notes > * { padding: .35rem .9rem; }
.note { background: var(--sheet); border-color: var(--hair); border-left-color: var(--line); }
.bar { display: flex; flex-wrap: wrap; gap: .5rem; align-items: center; }
.bar .space { flex: 1 1 0; }
.desk { display: grid; grid-template-columns: minmax(0, 3fr) minmax(24rem, 2fr); gap: 1rem; align-items: start; }
.side { display: grid; gap: .75rem; }
.still { position: sticky; top: .5rem; }
.rulings { display: grid; grid-template-columns: 1fr 1fr; gap: .5rem; }
.rulings p { grid-column: 1 / -1; }
@media (max-width: 62rem) { .desk { grid-template-columns: minmax(0, 1fr); } .still { position: static; } }

button, select, input, textarea, a.button { font: inherit; color: inherit; }
button, a.button { display: inline-block; min-height: 2.25rem; padding: .25rem .8rem; border: 1px solid var(--line); border-radius: 4px; background: #fff; color: var(--ink); text-decoration: none; cursor: pointer; }
button:hover, a.button:hover { background: #eef3f8; border-color: var(--ink); }
button.main, a.main { background: var(--accent); border-color: var(--accent); color: #fff; font-weight: 600; }
button.main:hover, a.main:hover { background: #083b77; }
button[aria-pressed=\"true\"] { background: #24303c; border-color: #24303c; color: #fff; font-weight: 600; }
input[type=\"text\"], select, textarea { min-height: 2.25rem; padding: .2rem .5rem; border: 1px solid var(--line); border-radius: 4px; background: #fff; color: var(--ink); }
input[aria-invalid=\"true\"] { border: 2px solid #b3261e; }
",
    "input[type=\"checkbox\"] { width: 1.05rem; height: 1.05rem; vertical-align: -.15rem; }
#place { max-width: 17rem; min-width: 0; flex: 0 1 auto; }
kbd { font: 600 .8rem/1 ui-monospace, \"DejaVu Sans Mono\", monospace; border: 1px solid var(--line); border-bottom-width: 2px; border-radius: 3px; padding: .08rem .3rem; background: #fff; color: var(--ink); }
button kbd { margin-left: .35rem; opacity: .85; }
button.main kbd { border-color: #cfe0f5; }

canvas { display: block; width: 100%; height: 64vh; min-height: 20rem; margin: .6rem 0 .4rem; border: 1px solid var(--line); background: #d4d9de; cursor: grab; touch-action: none; }
.legend { font-size: .9rem; color: var(--quiet); display: flex; flex-wrap: wrap; gap: .2rem 1.2rem; }
.ring { display: inline-block; width: 1.5rem; height: .95rem; border-radius: 50%; vertical-align: -.1rem; margin-right: .35rem; }
.ring.marked { border: 3px solid var(--marked); }
.ring.marginal { border: 3px dashed var(--marginal); }
.ring.clear { border: 2px dotted var(--quiet); }

.reasons { list-style: none; display: grid; gap: .25rem; }
.reasons li { border-left: 4px solid var(--marginal); padding-left: .6rem; }
fieldset { border: 0; border-bottom: 1px solid var(--line); min-width: 0; max-height: 46vh; min-height: 8rem; overflow-y: auto; padding: 0 4px; }
.options { list-style: none; border-top: 1px solid var(--hair); }
.options > li { display: grid; grid-template-columns: 1.6rem minmax(0, 1fr) auto; gap: .15rem .6rem; align-items: center; padding: .4rem 0; border-bottom: 1px solid var(--hair); }
.options .number { font-weight: 600; color: var(--quiet); text-align: right; }
.options .name { font-weight: 600; overflow-wrap: anywhere; }
.options .read { font-size: .9rem; color: var(--quiet); }
.options .read.marked { color: var(--marked); }
.options .read.marginal { color: var(--marginal); font-weight: 600; }
.options .pair { display: flex; }
.options .pair button { border-radius: 0; width: 5.4rem; padding: .25rem 0; }
.options .pair button:first-child { border-radius: 4px 0 0 4px; }
.options .pair button:last-child { border-radius: 0 4px 4px 0; margin-left: -1px; }
.options .open { background: linear-gradient(to right, #fbe9e4, transparent); }
.options .slot { grid-column: 2 / -1; display: flex; flex-wrap: wrap; gap: .4rem; align-items: center; }
.options .slot input { flex: 1 1 12rem; min-width: 0; }
.options .slot select { flex: 0 1 14rem; min-width: 0; }
.options .slot p { flex-basis: 100%; font-size: .9rem; }
.state { padding: .5rem .8rem; border-radius: 4px; background: #f1f3f5; border-left: 5px solid var(--line); overflow-wrap: anywhere; }
.state.done { background: var(--done-ground); border-color: var(--done); }
.live { min-height: 1.5rem; font-weight: 600; overflow-wrap: anywhere; }
.live.wrong { color: #9c1c12; }
textarea { width: 100%; font: .9rem/1.4 ui-monospace, \"DejaVu Sans Mono\", monospace; resize: vertical; }
.keys { display: flex; flex-wrap: wrap; gap: .3rem 1.1rem; font-size: .9rem; color: var(--quiet); list-style: none; }
.keys li { white-space: nowrap; }
</style>
</head>
<body>
<p id=\"unwhole\" class=\"alert\">Where this line stays, this page is not whole, or its script does not run. Decide nothing on it: make it anew, and read what the command says.</p>
<script type=\"text/plain\" id=\"data\">
",
];

const TAIL: [&str; 11] = [
    "</script>
<noscript><p class=\"alert\">This page does its work with JavaScript, which is turned off. Nothing can be decided here.</p></noscript>
<header>
  <div class=\"of\">
    <h1>Adjudication desk</h1>
    <p><bdi id=\"election\"></bdi> &middot; batch <bdi id=\"batch\"></bdi></p>
  </div>
  <div>
    <label for=\"station\">Station</label>
    <input type=\"text\" id=\"station\" inputmode=\"numeric\" autocomplete=\"off\" maxlength=\"4\" size=\"5\" aria-describedby=\"station-range\">
    <span id=\"station-range\">1 to 9999</span>
  </div>
  <div class=\"progress\">
    <progress id=\"bar\" max=\"1\" value=\"0\" aria-labelledby=\"count\"></progress>
    <p id=\"count\"></p>
  </div>
</header>
<main>
  <div class=\"notes\">
    <p id=\"damaged\" class=\"alert\" role=\"alert\" hidden></p>
    <p id=\"unkept\" class=\"alert\" hidden>This browser keeps nothing for this page: what is entered is lost when the page is closed or reloaded. Save the script before.</p>
    <p id=\"twice\" class=\"alert\" hidden>This page is open in another window too. What is entered in one overwrites what the other kept: close one of them and reload this one.</p>
    <p id=\"empty\" class=\"alert note\" hidden></p>
    <details id=\"differing\" class=\"alert\" hidden>
      <summary></summary>
      <p>The images in these sheets' places are read otherwise than the journal has them, or not at all, so nothing of them is shown. Make the page anew with the very files that were counted as this batch, in the same order. Where they are lost, take the papers out of the box and write the script by hand.</p>
      <ul></ul>
    </details>
    <details id=\"missing\" class=\"alert\" hidden>
      <summary></summary>
      <p>Contests of these sheets wait, and the scans that this page was made of do not reach so far. Make the page anew with all files of the batch, in the order in which they were counted.</p>
      <ul></ul>
    </details>
  </div>
  <section id=\"desk\" class=\"bare\" aria-labelledby=\"title\" hidden>
    <nav class=\"bar\" aria-label=\"Contests\">
      <button type=\"button\" id=\"previous\" aria-keyshortcuts=\"P\">Previous<kbd>P</kbd></button>
      <button type=\"button\" id=\"next\" aria-keyshortcuts=\"N\">Next<kbd>N</kbd></button>
      <button type=\"button\" id=\"undone\" aria-keyshortcuts=\"F\">First undone<kbd>F</kbd></button>
      <label for=\"place\" class=\"quiet\">Go to</label>
      <select id=\"place\"></select>
      <span class=\"space\"></span>
      <label><input type=\"checkbox\" id=\"onward\"> go on after a decision</label>
      <label><input type=\"checkbox\" id=\"letters\" checked> one-key shortcuts</label>
    </nav>
    <div class=\"desk\">
      <div class=\"panel still\">
        <div class=\"bar\" role=\"toolbar\" aria-label=\"Picture\">
          <button type=\"button\" id=\"larger\" aria-keyshortcuts=\"+\">Larger<kbd>+</kbd></button>
          <button type=\"button\" id=\"smaller\" aria-keyshortcuts=\"-\">Smaller<kbd>&minus;</kbd></button>
          <button type=\"button\" id=\"whole\" aria-keyshortcuts=\"0\">Whole<kbd>0</kbd></button>
          <button type=\"button\" id=\"rings\" aria-keyshortcuts=\"M\" aria-pressed=\"true\">Marks<kbd>M</kbd></button>
          <span id=\"scale\" class=\"quiet\"></span>
        </div>
        <canvas id=\"picture\" tabindex=\"0\" role=\"img\"></canvas>
        <p id=\"unshown\" class=\"alert\" hidden>The picture of this contest is damaged and cannot be shown. Decide nothing here: make the page anew.</p>
        <p class=\"legend\" id=\"legend\">
          <span><span class=\"ring marked\"></span>read as marked</span>
          <span><span class=\"ring marginal\"></span>marginal: a person decides</span>
          <span><span class=\"ring clear\"></span>read as clear</span>
        </p>
      </div>
      <div class=\"panel side\">
        <div>
          <h2 id=\"title\" tabindex=\"-1\"></h2>
          <p id=\"where\" class=\"quiet\"></p>
        </div>
        <ul id=\"reasons\" class=\"reasons\" aria-label=\"Why it waits\"></ul>
        <p id=\"holder\" class=\"alert\" hidden></p>
        <fieldset aria-labelledby=\"title\">
",
    "          <ol id=\"options\" class=\"options\"></ol>
        </fieldset>
        <datalist id=\"names\"></datalist>
        <div class=\"rulings\">
          <button type=\"button\" id=\"select\" class=\"main\" aria-keyshortcuts=\"D\">Decide as shown<kbd>D</kbd></button>
          <button type=\"button\" id=\"accept\" aria-keyshortcuts=\"A\">Accept as read<kbd>A</kbd></button>
          <button type=\"button\" id=\"overvote\" aria-keyshortcuts=\"O\">Overvote<kbd>O</kbd></button>
          <button type=\"button\" id=\"again\" aria-keyshortcuts=\"R\">Start over<kbd>R</kbd></button>
          <p id=\"state\" class=\"state\"></p>
          <p id=\"live\" class=\"live\" role=\"status\" aria-live=\"polite\"></p>
        </div>
      </div>
    </div>
    <ul class=\"keys\" aria-label=\"Keys\">
      <li><kbd>1</kbd>&hairsp;&ndash;&hairsp;<kbd>9</kbd> vote or no vote of an option</li>
      <li><kbd>D</kbd> or <kbd>Ctrl</kbd>&hairsp;<kbd>Enter</kbd> decide as shown</li>
      <li><kbd>A</kbd> accept as read</li>
      <li><kbd>O</kbd> overvote</li>
      <li><kbd>W</kbd> write-in's name</li>
      <li><kbd>Esc</kbd> leave a field</li>
      <li><kbd>R</kbd> start over</li>
      <li><kbd>P</kbd> <kbd>N</kbd> previous, next</li>
      <li><kbd>F</kbd> first undone</li>
      <li><kbd>+</kbd> <kbd>&minus;</kbd> <kbd>0</kbd> larger, smaller, whole</li>
      <li>arrows move the picture</li>
      <li><kbd>M</kbd> marks on and off</li>
      <li><kbd>S</kbd> to the script</li>
    </ul>
  </section>
  <section id=\"result\" class=\"side\" aria-labelledby=\"result-title\" hidden>
    <h2 id=\"result-title\">Script for <code>decide</code></h2>
    <p id=\"told\"></p>
    <div id=\"left-out\" class=\"alert\" hidden><ul></ul></div>
    <label for=\"script\" class=\"quiet\">The script, as it is saved</label>
    <textarea id=\"script\" rows=\"9\" readonly spellcheck=\"false\" dir=\"ltr\"></textarea>
    <div class=\"bar\">
      <span id=\"links\" class=\"bar\"></span>
      <span class=\"space\"></span>
      <button type=\"button\" id=\"forget\">Forget what was entered</button>
    </div>
  </section>
</main>
<script>
'use strict';

// ---- What stands in the page: one JSON object on each line ----

const REASONS = {
  Overvote: 'More options are marked than there are seats.',
  Undervote: 'Fewer options are marked than there are seats.',
  MarginalMark: 'A mark is marginal: more ink than a clear bubble has, less than a marked one.',
  BlankBallot: 'Nothing at all is marked on the sheet.',
  WriteIn: 'A write-in slot is marked.',
};
const READ = { marked: 'marked', marginal: 'marginal', clear: 'clear' };
const SCRIPT_LIMIT = 1048576;
const NAME_LIMIT = 256;
const BUBBLE_PIXELS = 624;

/** Ends the reading of the data where they aren't what the command writes. */
function demand(holds, what) {
  if (!holds) throw new Error(what);
}

const isCount = (value) => Number.isInteger(value) && value >= 0;
const isText = (value) => typeof value === 'string';
const bytesOf = (text) => new TextEncoder().encode(text).length;

function checkContest(contest) {
  demand(/^[A-Za-z0-9._-]{1,64}$/.test(contest.id) && isText(contest.title), 'a contest without a name');
  demand(isCount(contest.seats) && isCount(contest.page), 'a contest without seats or a page');
  demand(Array.isArray(contest.reasons) && contest.reasons.every(isText), 'a contest without reasons');
  demand(Array.isArray(contest.options) && contest.options.length > 0, 'a contest without options');
  for (const option of contest.options) {
    demand(isText(option.name) && Object.hasOwn(READ, option.state), 'an option that was not read');
    demand(isCount(option.score) && isCount(option.x) && isCount(option.y), 'an option without a place');
    demand(typeof option.slot === 'boolean', 'an option of no kind');
  }
  const picture = contest.picture;
  demand(picture && isCount(picture.width) && isCount(picture.height) && isText(picture.bits), 'a contest without a picture');
}

function checkSheet(sheet) {
",
    "  demand(isCount(sheet.number) && sheet.number >= 1 && sheet.number <= 999999, 'a sheet without a number');
  demand(sheet.holder === null || isCount(sheet.holder), 'a sheet with a holder that is no station');
  demand(isText(sheet.scan), 'a sheet of no scan');
  if (sheet.differs === true) return;
  demand(Array.isArray(sheet.contests), 'a sheet without contests');
  sheet.contests.forEach(checkContest);
}

/** The election's title, the batch, its sheets, those without images, and how many contests wait. */
function readData(text) {
  const lines = text.split('\\n').filter((line) => line !== '');
  let at = 0;
  const next = () => JSON.parse(lines[at++]);
  try {
    demand(lines.length >= 2, 'it is not whole');
    const { election, batch } = next();
    demand(isText(election) && /^[A-Za-z0-9_-]{1,32}$/.test(batch), 'no election or no batch');
    const sheets = [];
    while (at < lines.length - 1) {
      const sheet = next();
      checkSheet(sheet);
      sheets.push(sheet);
    }
    const { missing, waiting } = next();
    demand(Array.isArray(missing) && missing.every(isCount) && isCount(waiting), 'it has no end');
    return { election, batch, sheets, missing, waiting };
  } catch (fault) {
    throw new Error(`line ${at} of its data: ${fault.message}`);
  }
}

/** A number for the data, so that what is kept belongs to this page (cyrb53; nothing is secret here). */
function sumOf(text) {
  let a = 0xdeadbeef;
  let b = 0x41c6ce57;
  for (let at = 0; at < text.length; at++) {
    const code = text.charCodeAt(at);
    a = Math.imul(a ^ code, 2654435761);
    b = Math.imul(b ^ code, 1597334677);
  }
  a = Math.imul(a ^ (a >>> 16), 2246822507) ^ Math.imul(b ^ (b >>> 13), 3266489909);
  b = Math.imul(b ^ (b >>> 16), 2246822507) ^ Math.imul(a ^ (a >>> 13), 3266489909);
  return (4294967296 * (2097151 & b) + (a >>> 0)).toString(16);
}

// ---- What is decided of a contest ----
//
// An entry has a choice for each option (true, false, or null where nobody decided yet), a name for each
// write-in slot, and the ruling: null, 'select', 'accept' or 'overvote'.

const NAMED = ['text', 'candidate', 'none'];

const asRead = (option) => (option.state === 'marginal' ? null : option.state === 'marked');
const slotsOf = (contest) => contest.options.filter((option) => option.slot);
const candidatesOf = (contest) => contest.options.filter((option) => !option.slot);

function newEntry(contest) {
  return {
    choices: contest.options.map(asRead),
    names: slotsOf(contest).map(() => ({ kind: 'text', text: '', candidate: 0 })),
    ruling: null,
  };
}

function isEntry(contest, entry) {
  const candidates = candidatesOf(contest).length;
  return entry !== null && typeof entry === 'object'
    && Array.isArray(entry.choices) && entry.choices.length === contest.options.length
    && entry.choices.every((choice) => choice === null || typeof choice === 'boolean')
    && Array.isArray(entry.names) && entry.names.length === slotsOf(contest).length
    && entry.names.every((name) => name && NAMED.includes(name.kind) && isText(name.text) && isCount(name.candidate)
      && (name.kind !== 'candidate' || name.candidate < candidates))
    && [null, 'select', 'accept', 'overvote'].includes(entry.ruling);
}

/** A name as a script may have it: without control characters, and without blanks around it. */
function cleaned(text) {
  return text.replace(/[\\u0000-\\u001f\\u007f]/g, ' ').replace(/\\p{Surrogate}/gu, '\\ufffd').trim();
}

/** The option's name for people; a write-in slot is told by its number. */
function nameOf(contest, at) {
  const option = contest.options[at];
  return option.slot ? `Write-in ${slotsOf(contest).indexOf(option) + 1}` : option.name;
}

/** The slots whose options have a vote, by the slots' numbers. */
function slotsWithVotes(contest, choices) {
  return slotsOf(contest).map((option, slot) => slot).filter((slot) => choices[contest.options.indexOf(slotsOf(contest)[slot])]);
}

",
    "/** Why a contest can't be ruled so yet, and the slot that is meant if one is; null where it can. */
function complaintOf(contest, entry, ruling) {
  if (ruling === 'overvote') return null;
  const choices = ruling === 'accept' ? contest.options.map(asRead) : entry.choices;
  const open = choices.indexOf(null);
  if (open >= 0 && ruling === 'accept') {
    return { text: `${nameOf(contest, open)} was read as marginal, so the contest cannot count as it was read. Say vote or no vote, then decide as shown.` };
  }
  if (open >= 0) return { text: `Say vote or no vote of ${nameOf(contest, open)}.` };
  const votes = choices.filter((choice) => choice).length;
  if (ruling === 'select' && votes > contest.seats) {
    return { text: `${votes} have a vote and ${contest.seats} may: take votes away, or say overvote.` };
  }
  for (const slot of slotsWithVotes(contest, choices)) {
    const name = entry.names[slot];
    if (name.kind !== 'text') continue;
    const length = bytesOf(cleaned(name.text));
    if (length === 0) return { text: `Write-in ${slot + 1} has a vote and no name: write the name, or choose what it names.`, slot };
    if (length > NAME_LIMIT) return { text: `The name of write-in ${slot + 1} has ${length} bytes, and ${NAME_LIMIT} are allowed.`, slot };
  }
  return null;
}

/** The lines of a script that say what was decided of a contest. */
function linesOf(item, station, batch) {
  const { contest, entry, sheet } = item;
  const to = `${station} ${batch} ${sheet.number} ${contest.id}`;
  if (entry.ruling === 'overvote') return [`overvote ${to}`];
  const chosen = entry.choices.flatMap((choice, at) => (choice ? [at] : []));
  const ruling = entry.ruling === 'accept' ? `accept ${to}` : ['select', to, ...chosen].join(' ');
  const names = slotsWithVotes(contest, entry.choices).flatMap((slot) => {
    const name = entry.names[slot];
    if (name.kind === 'none') return [];
    return [`name ${to} ${slot} ` + (name.kind === 'text' ? `text ${cleaned(name.text)}` : `candidate ${name.candidate}`)];
  });
  return [ruling, ...names];
}

/** What was decided of a contest, in words. */
function toldOf(contest, entry) {
  if (entry.ruling === null) return 'Not decided yet.';
  if (entry.ruling === 'overvote') return 'Decided: overvoted. No option gets a vote.';
  const votes = entry.choices.flatMap((choice, at) => (choice ? [at] : [])).map((at) => {
    const option = contest.options[at];
    if (!option.slot) return isolated(option.name);
    const name = entry.names[slotsOf(contest).indexOf(option)];
    const told = { text: isolated(cleaned(name.text)), candidate: isolated(candidateName(contest, name.candidate)), none: 'without a name' };
    return `${nameOf(contest, at)} (${told[name.kind]})`;
  });
  const all = votes.length === 0 ? 'no vote' : votes.join('; ');
  if (entry.ruling === 'select') return `Decided: ${all}.`;
  const over = votes.length > contest.seats ? ', which is overvoted' : '';
  return `Decided: as it was read, ${all}${over}.`;
}

const candidateName = (contest, number) => (candidatesOf(contest)[number] || { name: '' }).name;

/** A text from the definition within one of the page's own, so that its direction stays its own. */
const isolated = (text) => `\\u2068${text}\\u2069`;

// ---- The page ----

const find = (id) => document.getElementById(id);
const text = find('data').textContent;
let data;
let items = [];
let shown = 0;
let key = '';
let isKept = true;

function make(tag, className, content) {
  const element = document.createElement(tag);
  if (className) element.className = className;
  if (content !== undefined) element.textContent = content;
  return element;
}

/** An element for a text of the definition, which has its own direction. */
function makeBdi(content, className) {
  const element = make('bdi', className, content);
  element.dir = 'auto';
  return element;
}

function say(message, isWrong) {
  find('live').textContent = message;
",
    "  find('live').classList.toggle('wrong', Boolean(isWrong));
}

const current = () => items[shown];
const isDone = (item) => item.entry.ruling !== null;

// ---- What is kept when the page is reloaded ----

function keep() {
  const entries = {};
  for (const item of items) {
    if (item.isTouched) entries[item.key] = item.entry;
  }
  try {
    localStorage.setItem(key, JSON.stringify({ entries, station: find('station').value, shown, onward: find('onward').checked, letters: find('letters').checked }));
  } catch (fault) {
    isKept = false;
    find('unkept').hidden = false;
  }
}

function takeKept() {
  let kept = null;
  try {
    kept = JSON.parse(localStorage.getItem(key));
    localStorage.setItem(`${key}?`, '');
    localStorage.removeItem(`${key}?`);
  } catch (fault) {
    isKept = fault instanceof SyntaxError;
    find('unkept').hidden = isKept;
  }
  if (kept === null || typeof kept !== 'object') return;
  for (const item of items) {
    const entry = kept.entries && kept.entries[item.key];
    if (entry && isEntry(item.contest, entry)) {
      item.entry = entry;
      item.isTouched = true;
    }
  }
  if (isText(kept.station)) find('station').value = kept.station.slice(0, 4);
  if (isCount(kept.shown) && kept.shown < items.length) shown = kept.shown;
  find('onward').checked = kept.onward === true;
  find('letters').checked = kept.letters !== false;
}

function forget() {
  if (!confirm('Forget every decision and name that was entered on this page, and the station?')) return;
  try {
    localStorage.removeItem(key);
  } catch (fault) {
    isKept = false;
  }
  for (const item of items) {
    item.entry = newEntry(item.contest);
    item.isTouched = false;
    showPlace(item);
  }
  find('station').value = '';
  shown = 0;
  show();
  showResult();
  say('All that was entered is forgotten.');
}

// ---- The picture ----

const canvas = find('picture');
const view = { scale: 1, left: 0, top: 0, page: null };

/** The picture's pixels on a canvas of their own; null where they aren't what is said of them. */
function pageOf(picture) {
  const stride = Math.ceil(picture.width / 8);
  let bits;
  try {
    bits = atob(picture.bits);
  } catch (fault) {
    return null;
  }
  if (picture.width === 0 || picture.height === 0 || bits.length !== stride * picture.height) return null;
  const page = make('canvas');
  page.width = picture.width;
  page.height = picture.height;
  const image = new ImageData(picture.width, picture.height);
  const pixels = new Uint32Array(image.data.buffer).fill(0xffffffff);
  for (let y = 0; y < picture.height; y++) {
    for (let x = 0; x < picture.width; x++) {
      if ((bits.charCodeAt(y * stride + (x >> 3)) >> (7 - (x & 7))) & 1) pixels[y * picture.width + x] = 0xff000000;
    }
  }
  page.getContext('2d').putImageData(image, 0, 0);
  return page;
}

const ratio = () => window.devicePixelRatio || 1;
const fitting = () => Math.min(canvas.width / view.page.width, canvas.height / view.page.height);

/** Where an axis begins, so that no more is empty than has to be. */
function bounded(start, shown, whole) {
  if (shown >= whole) return (whole - shown) / 2;
  return Math.min(Math.max(start, 0), whole - shown);
}

function draw() {
  const pen = canvas.getContext('2d');
  pen.setTransform(1, 0, 0, 1, 0, 0);
  pen.clearRect(0, 0, canvas.width, canvas.height);
  if (view.page === null) return;
  view.left = bounded(view.left, canvas.width / view.scale, view.page.width);
  view.top = bounded(view.top, canvas.height / view.scale, view.page.height);
  pen.setTransform(view.scale, 0, 0, view.scale, -view.left * view.scale, -view.top * view.scale);
  pen.imageSmoothingEnabled = view.scale < 3;
  pen.drawImage(view.page, 0, 0);
  if (find('rings').getAttribute('aria-pressed') === 'true') current().contest.options.forEach((option, number) => drawRing(pen, option, number));
  find('scale').textContent = `${Math.round(100 * view.scale / ratio())} %`;
}

",
    "/** A ring about a bubble, which has 40 by 26 pixels; its form says what was read, as its colour does. */
function drawRing(pen, option, number) {
  const forms = { marked: ['#0b4f9e', 3, []], marginal: ['#a8321a', 3, [8, 5]], clear: ['#4d5761', 2, [2, 4]] };
  const [colour, width, dashes] = forms[option.state];
  pen.strokeStyle = colour;
  pen.lineWidth = width;
  pen.setLineDash(dashes);
  pen.beginPath();
  pen.ellipse(option.x, option.y, 28, 20, 0, 0, 2 * Math.PI);
  pen.stroke();
  pen.setLineDash([]);
  pen.beginPath();
  pen.arc(option.x - 24, option.y - 18, 10, 0, 2 * Math.PI);
  pen.fillStyle = colour;
  pen.fill();
  pen.fillStyle = '#fff';
  pen.font = 'bold 13px sans-serif';
  pen.textAlign = 'center';
  pen.textBaseline = 'middle';
  pen.fillText(String(number + 1), option.x - 24, option.y - 17.5);
}

function showWhole() {
  if (view.page !== null) view.scale = fitting();
  draw();
}

/** Zooms by a factor; the place (x, y) of the canvas, in its pixels, stays where it is. */
function zoom(factor, x = canvas.width / 2, y = canvas.height / 2) {
  if (view.page === null) return;
  const scale = Math.min(Math.max(view.scale * factor, fitting()), 12 * ratio());
  view.left += x / view.scale - x / scale;
  view.top += y / view.scale - y / scale;
  view.scale = scale;
  draw();
}

function move(right, down) {
  view.left += right / view.scale;
  view.top += down / view.scale;
  draw();
}

function fitCanvas() {
  const width = Math.round(canvas.clientWidth * ratio());
  const height = Math.round(canvas.clientHeight * ratio());
  if (width === 0 || (width === canvas.width && height === canvas.height)) return;
  const wasWhole = view.page !== null && view.scale <= fitting() * 1.001;
  canvas.width = width;
  canvas.height = height;
  if (wasWhole) showWhole();
  else draw();
}

// ---- The contest that is shown ----

/** Which images of the batch a sheet's are, and in which file; it may have begun at the end of the one before. */
const imagesOf = (sheet) => `images ${2 * sheet.number - 1} and ${2 * sheet.number} of the batch, the second in ${isolated(sheet.scan)}`;

function show() {
  const { contest, sheet } = current();
  find('title').replaceChildren(makeBdi(contest.title));
  find('where').textContent = `Sheet ${sheet.number}, page ${contest.page}; ${imagesOf(sheet)}. Votes for at most ${contest.seats}. Contest ${shown + 1} of ${items.length} here.`;
  find('reasons').replaceChildren(...contest.reasons.map((reason) => make('li', '', REASONS[reason] || reason)));
  find('options').replaceChildren(...contest.options.map(makeOption));
  find('place').value = String(shown);
  find('previous').disabled = shown === 0;
  find('next').disabled = shown === items.length - 1;
  find('names').replaceChildren(...namesBefore(contest).map((name) => {
    const option = make('option');
    option.value = name;
    return option;
  }));
  view.page = pageOf(contest.picture);
  canvas.hidden = view.page === null;
  find('unshown').hidden = view.page !== null;
  canvas.setAttribute('aria-label', `Picture of the contest ${contest.title} on sheet ${sheet.number}. Arrow keys move it, plus and minus zoom.`);
  fitCanvas();
  showWhole();
  showHolder();
  showEntry();
}

/** Names that were written for this contest on other sheets, so that one name is written one way. */
function namesBefore(contest) {
  const names = new Set();
  for (const item of items) {
    if (item.contest.id !== contest.id || item === current()) continue;
    for (const name of item.entry.names) if (name.kind === 'text' && cleaned(name.text)) names.add(cleaned(name.text));
  }
  return [...names].sort();
}

function makeOption(option, number) {
  const { contest } = current();
  const row = make('li');
  const name = option.slot ? make('span', 'name', nameOf(contest, number)) : makeBdi(option.name, 'name');
  name.id = `option-${number}`;
",
    "  const read = make('span', `read ${option.state}`, `read as ${READ[option.state]}, ${(100 * option.score / BUBBLE_PIXELS).toFixed(1)} % ink`);
  read.id = `read-${number}`;
  const words = make('div');
  words.append(name, make('br'), read);
  const pair = make('div', 'pair');
  pair.setAttribute('role', 'group');
  pair.setAttribute('aria-labelledby', `${name.id} ${read.id}`);
  for (const vote of [true, false]) {
    const button = make('button', '', vote ? 'Vote' : 'No vote');
    button.type = 'button';
    button.addEventListener('click', () => choose(number, vote));
    pair.append(button);
  }
  row.append(make('span', 'number', String(number + 1)), words, pair);
  if (option.slot) row.append(makeSlot(contest, slotsOf(contest).indexOf(option)));
  return row;
}

/** What a write-in slot names: words, a candidate, or nothing that can be read. */
function makeSlot(contest, slot) {
  const line = make('div', 'slot');
  const kind = make('select');
  kind.setAttribute('aria-label', `What write-in ${slot + 1} names`);
  const add = (value, content) => {
    const option = make('option', '', content);
    option.value = value;
    option.dir = 'auto';
    kind.append(option);
  };
  add('text', 'the name as written:');
  candidatesOf(contest).forEach((candidate, number) => add(`candidate ${number}`, `the candidate ${isolated(candidate.name)}`));
  add('none', 'left without a name');
  const field = make('input');
  field.type = 'text';
  field.id = `slot-${slot}`;
  field.dir = 'auto';
  field.autocomplete = 'off';
  field.spellcheck = false;
  field.setAttribute('list', 'names');
  field.setAttribute('aria-label', `Name of write-in ${slot + 1}`);
  kind.addEventListener('change', () => {
    const [word, number] = kind.value.split(' ');
    change((entry) => Object.assign(entry.names[slot], { kind: word, candidate: Number(number || 0) }));
  });
  field.addEventListener('input', () => change((entry) => { entry.names[slot].text = field.value; }));
  line.append(kind, field, make('p', 'quiet'));
  return line;
}

/** Puts what was entered into the controls, which stay as they are otherwise. */
function showEntry() {
  const { contest, entry } = current();
  [...find('options').children].forEach((row, number) => {
    const choice = entry.ruling === 'overvote' ? false : entry.choices[number];
    row.classList.toggle('open', choice === null);
    const [vote, noVote] = row.querySelectorAll('.pair button');
    vote.setAttribute('aria-pressed', String(choice === true));
    noVote.setAttribute('aria-pressed', String(choice === false));
    const line = row.querySelector('.slot');
    if (line) showSlot(line, contest, entry, slotsOf(contest).indexOf(contest.options[number]), choice !== false);
  });
  find('state').textContent = toldOf(contest, entry);
  find('state').classList.toggle('done', isDone(current()));
}

function showSlot(line, contest, entry, slot, isShown) {
  const name = entry.names[slot];
  const [kind, field, hint] = line.children;
  line.hidden = !isShown;
  kind.value = name.kind === 'candidate' ? `candidate ${name.candidate}` : name.kind;
  if (field.value !== name.text) field.value = name.text;
  field.hidden = name.kind !== 'text';
  field.setAttribute('aria-invalid', String(bytesOf(cleaned(name.text)) > NAME_LIMIT));
  const isTwice = name.kind === 'candidate' && entry.choices[contest.options.indexOf(candidatesOf(contest)[name.candidate])];
  hint.hidden = !isTwice;
  hint.textContent = 'This candidate has a vote already: the slot gives no second one.';
}

function showHolder() {
  const { sheet } = current();
  const isElsewhere = sheet.holder !== null && sheet.holder !== stationOf();
  find('holder').hidden = !isElsewhere;
  find('holder').textContent = `Station ${sheet.holder} held this sheet when the page was made. What is decided of it here stays out of the script of another station: let station ${sheet.holder} give it back, and make the page anew.`;
}

",
    "/** Changes the entry that is shown, which is undecided then. */
function change(how) {
  const item = current();
  const wasDone = isDone(item);
  how(item.entry);
  item.entry.ruling = null;
  item.isTouched = true;
  showEntry();
  if (wasDone) {
    showPlace(item);
    showResult();
    say('The contest is open again: decide it anew.');
  } else {
    say('');
  }
  keep();
}

function choose(number, vote) {
  change((entry) => { entry.choices[number] = vote; });
  say(`${nameOf(current().contest, number)}: ${vote ? 'vote' : 'no vote'}.`);
}

function toggle(number) {
  const { contest, entry } = current();
  if (number < contest.options.length) choose(number, entry.ruling === 'overvote' || entry.choices[number] !== true);
}

function rule(ruling) {
  const item = current();
  const complaint = complaintOf(item.contest, item.entry, ruling);
  if (view.page === null) {
    say('Without its picture the contest is not decided here.', true);
    return;
  }
  if (complaint !== null) {
    const wantsName = complaint.slot !== undefined;
    if (wantsName && ruling === 'accept') change((entry) => { entry.choices = item.contest.options.map(asRead); });
    say(complaint.text, true);
    if (wantsName) find(`slot-${complaint.slot}`).focus();
    return;
  }
  if (ruling !== 'select') item.entry.choices = item.contest.options.map(asRead);
  item.entry.ruling = ruling;
  item.isTouched = true;
  showEntry();
  showPlace(item);
  showResult();
  keep();
  if (isField(document.activeElement)) find('title').focus({ preventScroll: true });
  say(`Sheet ${item.sheet.number}, ${isolated(item.contest.title)}: ${toldOf(item.contest, item.entry)} ${find('count').textContent}`);
  if (find('onward').checked && items.some((other) => !isDone(other))) goToUndone(shown, true);
}

function startOver() {
  const item = current();
  item.entry = newEntry(item.contest);
  item.isTouched = true;
  showEntry();
  showPlace(item);
  showResult();
  keep();
  say('The contest stands as it was read, and is undecided.');
}

// ---- From contest to contest ----

function goTo(number, keepsMessage) {
  if (number < 0 || number >= items.length || number === shown) return;
  shown = number;
  show();
  keep();
  if (!keepsMessage) say('');
  find('title').focus({ preventScroll: true });
}

/** The first undone contest behind a place, and from the first one on where there is none. */
function goToUndone(behind, keepsMessage) {
  const undone = items.flatMap((item, number) => (isDone(item) ? [] : [number]));
  if (undone.length === 0) say('All contests on this page are decided. Save the script.');
  else goTo(undone.find((number) => number > behind) ?? undone[0], keepsMessage);
}

function showPlace(item) {
  item.line.textContent = `${items.indexOf(item) + 1}. sheet ${item.sheet.number}: ${isolated(item.contest.title)}${isDone(item) ? ' (decided)' : ''}`;
}

// ---- The script ----

/** The station's number, or null where the field has none. */
function stationOf() {
  const word = find('station').value.trim();
  return /^[1-9][0-9]{0,3}$/.test(word) ? Number(word) : null;
}

/** The items of which something was decided, sheet by sheet. */
function doneSheets() {
  const groups = new Map();
  for (const item of items.filter(isDone)) groups.set(item.sheet, [...(groups.get(item.sheet) || []), item]);
  return [...groups];
}

/** The lines for a sheet: the station takes it, decides, and gives it back. */
function blockOf(sheet, done, station) {
  const to = `${station} ${data.batch} ${sheet.number}`;
  const lines = done.flatMap((item) => linesOf(item, station, data.batch));
  return [`claim ${to}`, ...lines, `release ${to}`, ''].join('\\n');
}

/** The blocks joined to scripts, none of which is longer than a script may be. */
function scriptsOf(blocks) {
  const scripts = [];
  let length = SCRIPT_LIMIT;
  for (const block of blocks) {
    length += bytesOf(block);
    if (length > SCRIPT_LIMIT) {
      scripts.push('');
      length = bytesOf(block);
    }
",
    "    scripts[scripts.length - 1] += block;
  }
  return scripts;
}

function showResult() {
  const done = items.filter(isDone).length;
  const station = stationOf();
  find('count').textContent = `${done} of ${items.length} decided, ${items.length - done} left.`;
  find('bar').max = items.length || 1;
  find('bar').value = done;
  find('station').setAttribute('aria-invalid', String(station === null));
  const sheets = station === null ? [] : doneSheets();
  const isElsewhere = (sheet) => sheet.holder !== null && sheet.holder !== station;
  const scripts = scriptsOf(sheets.filter(([sheet]) => !isElsewhere(sheet)).map(([sheet, group]) => blockOf(sheet, group, station)));
  find('script').value = scripts.join('');
  listSheets('left-out', sheets.filter(([sheet]) => isElsewhere(sheet)).map(([sheet]) =>
    `Sheet ${sheet.number} is left out: station ${sheet.holder} holds it.`));
  showLinks(scripts, station);
  if (done === 0) find('told').textContent = 'Nothing is decided yet.';
  else if (station === null) find('told').textContent = 'Write the number of this station at the head of the page: without it there is no script.';
  else if (done < items.length) find('told').textContent = `${items.length - done} contests on this page are undecided, and not in the script.`;
  else find('told').textContent = 'Every contest on this page is decided. Save the script, and hand it to decide.';
}

let addresses = [];

function showLinks(scripts, station) {
  addresses.forEach((address) => URL.revokeObjectURL(address));
  addresses = scripts.map((script) => URL.createObjectURL(new Blob([script], { type: 'text/plain' })));
  find('links').replaceChildren(...addresses.map((address, number) => {
    const part = scripts.length === 1 ? '' : `-${number + 1}`;
    const link = make('a', 'button main', `Save ${scripts.length === 1 ? 'the script' : `part ${number + 1} of ${scripts.length}`}`);
    link.href = address;
    link.download = `decisions-${data.batch}-${station}${part}.txt`;
    return link;
  }));
}

// ---- Keys and the pointer ----

const isField = (element) => element instanceof Element && element.matches('input[type=\"text\"], select, textarea');
const isPressed = (id) => find(id).getAttribute('aria-pressed') === 'true';

function toggleRings() {
  find('rings').setAttribute('aria-pressed', String(!isPressed('rings')));
  draw();
}

function toName() {
  const field = find('options').querySelector('.slot:not([hidden]) input:not([hidden])');
  if (field) field.focus();
  else say('No write-in with a vote has a name to be written.');
}

const step = () => 80 * ratio();
const KEYS = {
  d: () => rule('select'),
  a: () => rule('accept'),
  o: () => rule('overvote'),
  r: startOver,
  p: () => goTo(shown - 1),
  n: () => goTo(shown + 1),
  f: () => goToUndone(-1),
  w: toName,
  m: toggleRings,
  s: () => find('script').focus(),
  '+': () => zoom(1.25),
  '=': () => zoom(1.25),
  '-': () => zoom(0.8),
  '0': showWhole,
  arrowleft: () => move(-step(), 0),
  arrowright: () => move(step(), 0),
  arrowup: () => move(0, -step()),
  arrowdown: () => move(0, step()),
};

function onKey(event) {
  if (items.length === 0 || event.isComposing || event.altKey || event.metaKey) return;
  const name = event.key.toLowerCase();
  if (isField(event.target) || event.ctrlKey) {
    if (name === 'enter' && event.ctrlKey) rule('select');
    else if (name === 'escape' && isField(event.target)) find('title').focus({ preventScroll: true });
    else return;
  } else if (!find('letters').checked && name.length === 1) {
    return;
  } else if (/^[1-9]$/.test(name)) {
    toggle(Number(name) - 1);
  } else if (Object.hasOwn(KEYS, name)) {
    KEYS[name]();
  } else {
    return;
  }
  event.preventDefault();
}

function watchPointer() {
  let from = null;
  canvas.addEventListener('pointerdown', (event) => {
    from = event;
    canvas.setPointerCapture(event.pointerId);
  });
  canvas.addEventListener('pointermove', (event) => {
    if (from === null) return;
",
    "    move((from.clientX - event.clientX) * ratio(), (from.clientY - event.clientY) * ratio());
    from = event;
  });
  for (const end of ['pointerup', 'pointercancel']) canvas.addEventListener(end, () => { from = null; });
  canvas.addEventListener('wheel', (event) => {
    event.preventDefault();
    zoom(event.deltaY < 0 ? 1.15 : 1 / 1.15, event.offsetX * ratio(), event.offsetY * ratio());
  }, { passive: false });
}

function watch() {
  const on = (id, what, does) => find(id).addEventListener(what, does);
  on('previous', 'click', () => goTo(shown - 1));
  on('next', 'click', () => goTo(shown + 1));
  on('undone', 'click', () => goToUndone(-1));
  on('place', 'change', () => goTo(Number(find('place').value)));
  on('onward', 'change', keep);
  on('letters', 'change', keep);
  on('larger', 'click', () => zoom(1.25));
  on('smaller', 'click', () => zoom(0.8));
  on('whole', 'click', showWhole);
  on('rings', 'click', toggleRings);
  for (const ruling of ['select', 'accept', 'overvote']) on(ruling, 'click', () => rule(ruling));
  on('again', 'click', startOver);
  on('forget', 'click', forget);
  on('station', 'input', () => {
    showHolder();
    showResult();
    keep();
  });
  watchPointer();
  document.addEventListener('keydown', onKey);
  new ResizeObserver(fitCanvas).observe(canvas);
  window.addEventListener('storage', (event) => { if (event.key === key) find('twice').hidden = false; });
  window.addEventListener('beforeunload', (event) => {
    if (!isKept && items.some((item) => item.isTouched)) event.preventDefault();
  });
}

// ---- The beginning ----

function listSheets(id, lines) {
  find(id).hidden = lines.length === 0;
  find(id).querySelector('ul').replaceChildren(...lines.map((line) => make('li', '', line)));
}

function begin() {
  data = readData(text);
  key = `desk ${data.batch} ${sumOf(text)} ${data.election}`;
  for (const [id, content] of [['election', data.election], ['batch', data.batch]]) {
    find(id).textContent = content;
    find(id).dir = 'auto';
  }
  document.title = `Batch ${data.batch}: adjudication desk`;
  for (const sheet of data.sheets) {
    for (const contest of sheet.contests || []) {
      items.push({ sheet, contest, key: `${sheet.number} ${contest.id}`, entry: newEntry(contest), isTouched: false, line: make('option') });
    }
  }
  const differing = data.sheets.filter((sheet) => sheet.differs === true);
  find('missing').querySelector('summary').textContent = `Sheets of which there are no images: ${data.missing.length}`;
  find('differing').querySelector('summary').textContent = `Sheets whose images are not what was counted: ${differing.length}`;
  find('missing').open = find('differing').open = items.length === 0;
  listSheets('missing', data.missing.map((number) => `Sheet ${number}: its images are ${2 * number - 1} and ${2 * number} of the batch.`));
  listSheets('differing', differing.map((sheet) =>
    `Sheet ${sheet.number}: ${imagesOf(sheet)}${sheet.holder === null ? '' : `; station ${sheet.holder} holds it`}.`));
  const others = data.waiting - items.length;
  find('empty').hidden = items.length > 0 && others === 0;
  if (data.waiting === 0) find('empty').textContent = 'No contest on the sheets of this batch waits. There is nothing to decide.';
  else find('empty').textContent = `${data.waiting} contests wait on the sheets of this batch; ${items.length} of them can be decided on this page.`;
  find('desk').hidden = find('result').hidden = items.length === 0;
  if (items.length === 0) {
    find('count').textContent = 'Nothing to decide here.';
    return;
  }
  takeKept();
  items.forEach((item, number) => {
    item.line.value = String(number);
    showPlace(item);
  });
  find('place').append(...items.map((item) => item.line));
  watch();
  show();
  showResult();
}

find('unwhole').hidden = true;
try {
  begin();
} catch (fault) {
  find('damaged').hidden = false;
",
    "  find('damaged').textContent = `This page is damaged and nothing can be decided on it: make it anew. (${fault.message})`;
  find('desk').hidden = find('result').hidden = true;
}
</script>
</body>
</html>
",
];

/// Adds what stands before the data.
pub fn push_head(text: &mut Bytes) -> Result<(), OutOfMemory>
    ensures { OnOk result (text.new ≡ text.old ++ head) }
{
    push_pieces(text, &HEAD)
}

/// Adds what stands behind the data.
pub fn push_tail(text: &mut Bytes) -> Result<(), OutOfMemory>
    ensures { OnOk result (text.new ≡ text.old ++ tail) }
{
    push_pieces(text, &TAIL)
}
