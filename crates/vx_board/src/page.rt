//! The page's fixed parts: what stands before the data, and what behind them, each in pieces.

ghost use Rattle.std.specs.Prelude.{◌≡◌, ◌++◌, OnOk};
ghost use Rattle.vx_board.specs.Page.{head, tail};

use vx_base::{Bytes, OutOfMemory};
use vx_markup::push_pieces;

const HEAD: [&str; 2] = [
    "<!DOCTYPE html>
<html lang=\"en\">
<head>
<meta charset=\"utf-8\">
<meta http-equiv=\"Content-Security-Policy\" content=\"default-src 'none'; script-src 'sha256-Jo8mZ9l+2Wk3dePpodL0hWLEEm6tXnBI3qkaPgyaVhY='; style-src 'sha256-dpAuLWvoINttl26Ku02DrCDk4a9bPFY9fOFu8tYIeE8='; base-uri 'none'; form-action 'none'; require-trusted-types-for 'script'; trusted-types 'none'\">
<meta name=\"viewport\" content=\"width=device-width, initial-scale=1\">
<meta name=\"referrer\" content=\"no-referrer\">
<title>Audit board</title>
<style>
:root {
  color-scheme: light;
  --ink: #1b1f24;
  --quiet: #4d5761;
  --ground: #eceff2;
  --sheet: #ffffff;
  --line: #8b949e;
  --hair: #ccd2d8;
  --accent: #0b4f9e;
  --done: #14613a;
  --done-ground: #e6f3eb;
  --alert: #7a2e00;
  --alert-ground: #fdf0e3;
}
* { box-sizing: border-box; }
[hidden] { display: none !important; }
html { font: 16px/1.45 system-ui, \"Segoe UI\", \"DejaVu Sans\", sans-serif; color: var(--ink); background: var(--ground); }
body { margin: 0; }
h1, h2, h3, p, ul, ol, fieldset { margin: 0; padding: 0; }
h1 { font-size: 1.1rem; font-weight: 650; }
h2 { font-size: 1.3rem; line-height: 1.25; font-weight: 650; overflow-wrap: anywhere; }
h3 { font-size: 1.1rem; font-weight: 650; overflow-wrap: anywhere; }
bdi { overflow-wrap: anywhere; }
code { overflow-wrap: anywhere; }
.quiet { color: var(--quiet); }
:focus-visible { outline: 3px solid #c75c00; outline-offset: 2px; }
h2:focus, h3:focus { outline: none; }

header { display: flex; flex-wrap: wrap; gap: .5rem 2.5rem; align-items: center; padding: .6rem 1rem; background: #1f2933; color: #fff; }
header .of { flex: 1 1 16rem; min-width: 0; }
header .of p { color: #d5dce3; overflow-wrap: anywhere; }
header .progress { flex: 0 1 22rem; min-width: 12rem; }
header progress { width: 100%; height: .6rem; accent-color: #7fc49b; }

main { max-width: 60rem; margin: 0 auto; padding: 1rem; display: grid; grid-template-columns: minmax(0, 1fr); gap: 1rem; }
section { background: var(--sheet); border: 1px solid var(--hair); border-radius: 4px; padding: .9rem 1.1rem; min-width: 0; display: grid; grid-template-columns: minmax(0, 1fr); gap: .75rem; }
.alert { background: var(--alert-ground); border: 1px solid #d9a066; border-left: 5px solid var(--alert); border-radius: 4px; padding: .6rem .9rem; }
.notes { display: grid; gap: .4rem; }
.notes:not(:has(> :not([hidden]))) { display: none; }
.bar { display: flex; flex-wrap: wrap; gap: .5rem; align-items: center; }
.bar .space { flex: 1 1 0; }

button, input, select, textarea, a.button { font: inherit; color: inherit; }
button, a.button { display: inline-block; min-height: 2.5rem; padding: .25rem .8rem; border: 1px solid var(--line); border-radius: 4px; background: #fff; color: var(--ink); text-decoration: none; cursor: pointer; }
button:hover, a.button:hover { background: #eef3f8; border-color: var(--ink); }
button.main, a.main { background: var(--accent); border-color: var(--accent); color: #fff; font-weight: 600; }
button.main:hover, a.main:hover { background: #083b77; }
button[aria-pressed=\"true\"], button[aria-current=\"true\"] { background: #24303c; border-color: #24303c; color: #fff; font-weight: 600; }
input[type=\"text\"], input[type=\"file\"], select, textarea { min-height: 2.25rem; max-width: 100%; padding: .2rem .5rem; border: 1px solid var(--line); border-radius: 4px; background: #fff; color: var(--ink); }
input[type=\"checkbox\"] { width: 1.15rem; height: 1.15rem; vertical-align: -.2rem; }
kbd { font: 600 .8rem/1 ui-monospace, \"DejaVu Sans Mono\", monospace; border: 1px solid var(--line); border-bottom-width: 2px; border-radius: 3px; padding: .08rem .3rem; background: #fff; color: var(--ink); }
button kbd { margin-left: .35rem; }

table { border-collapse: collapse; width: 100%; table-layout: fixed; }
th, td { text-align: left; padding: .3rem .6rem .3rem 0; border-bottom: 1px solid var(--hair); vertical-align: top; overflow-wrap: anywhere; }
col.number { width: 6.5rem; }
",
    "td.number, th.number { text-align: right; padding-right: 1.2rem; font-variant-numeric: tabular-nums; }
col.box { width: 2.6rem; }
col.batch { width: 25%; }
.heading { display: none; }

.options { list-style: none; display: grid; gap: .4rem; }
.options button { display: grid; grid-template-columns: 1.8rem minmax(0, 1fr); gap: .5rem; align-items: center; width: 100%; text-align: left; }
.options button kbd { margin: 0; text-align: center; justify-self: start; }
.options button bdi { font-weight: 600; text-align: start; }
fieldset { border: 0; min-width: 0; }
.rulings { display: grid; grid-template-columns: repeat(auto-fit, minmax(12rem, 1fr)); gap: .5rem; }
.others { display: grid; gap: .4rem; }
.others select { width: 100%; }
.state { padding: .5rem .8rem; border-radius: 4px; background: #f1f3f5; border-left: 5px solid var(--line); overflow-wrap: anywhere; }
.state.done { background: var(--done-ground); border-color: var(--done); }
.live { min-height: 1.5rem; font-weight: 600; overflow-wrap: anywhere; }
.live.wrong { color: #9c1c12; }
textarea { width: 100%; font: .9rem/1.4 ui-monospace, \"DejaVu Sans Mono\", monospace; resize: vertical; }
.keys { display: flex; flex-wrap: wrap; gap: .3rem 1.1rem; font-size: .9rem; color: var(--quiet); list-style: none; }
.differing { padding-left: 1.2rem; max-height: 20rem; overflow-y: auto; }
.differing li.done { color: var(--done); }

@media print {
  html { background: none; font-size: 11pt; }
  header, #views, #read, #save, .screen, #unkept, #twice, #together, noscript { display: none !important; }
  main { max-width: none; padding: 0; display: block; }
  #views:not([hidden]) ~ #fetch { display: block !important; border: 0; padding: 0; }
  #fetch p { margin: .3rem 0 .6rem; }
  #fetch thead { display: table-header-group; }
  #fetch .heading { display: table-row; }
  #fetch tr { break-inside: avoid; }
  #fetch tr.first td { border-top: 2px solid #000; }
  #fetch th, #fetch td { border-color: #000; }
  #fetch input { appearance: none; width: .95rem; height: .95rem; margin: 0; border: 1.5px solid #000; border-radius: 0; background: none; }
  #fetch input:checked { border-width: .475rem; }
}
</style>
</head>
<body>
<p id=\"unwhole\" class=\"alert\">Where this line stays, this page is not whole, or its script does not run. Read nothing by it: make it anew, and read what the command says.</p>
<script type=\"text/plain\" id=\"data\">
",
];

const TAIL: [&str; 10] = [
    "</script>
<noscript><p class=\"alert\">This page does its work with JavaScript, which is turned off. Nothing can be entered here.</p></noscript>
<header>
  <div class=\"of\">
    <h1>Audit board</h1>
    <p><bdi id=\"election\"></bdi></p>
    <p>Seed <code id=\"seed\"></code>, size <span id=\"size\"></span></p>
  </div>
  <div class=\"progress\">
    <progress id=\"bar\" max=\"1\" value=\"0\" aria-labelledby=\"count\"></progress>
    <p id=\"count\"></p>
  </div>
</header>
<main>
  <div class=\"notes\">
    <p id=\"damaged\" class=\"alert\" role=\"alert\" hidden></p>
    <p id=\"unkept\" class=\"alert\" hidden>This browser keeps nothing for this page: what is entered is lost when the page is closed or reloaded. Save the readings before.</p>
    <p id=\"twice\" class=\"alert\" role=\"alert\" hidden>This page is open in another window too. What is entered in one overwrites what the other kept: close one of them and reload this one.</p>
    <p id=\"together\" class=\"alert\" hidden>These are the readings of two boards together. What was entered on this page before is kept by itself. <button type=\"button\" id=\"apart\">Back to this board's own</button></p>
  </div>
  <nav id=\"views\" class=\"bar\" aria-label=\"Parts of the page\" hidden>
    <button type=\"button\" id=\"to-fetch\" aria-keyshortcuts=\"L\">List to fetch<kbd>L</kbd></button>
    <button type=\"button\" id=\"to-read\" aria-keyshortcuts=\"R\">Read ballots<kbd>R</kbd></button>
    <button type=\"button\" id=\"to-save\" aria-keyshortcuts=\"S\">Save, and two boards<kbd>S</kbd></button>
    <span class=\"space\"></span>
    <label><input type=\"checkbox\" id=\"letters\" checked> one-key shortcuts</label>
  </nav>
  <section id=\"fetch\" aria-labelledby=\"fetch-title\" hidden>
    <h2 id=\"fetch-title\" tabindex=\"-1\">Ballots to fetch</h2>
    <p id=\"fetch-told\"></p>
    <p class=\"screen\"><button type=\"button\" id=\"print\">Print the list</button></p>
    <table>
      <colgroup><col class=\"box\"><col class=\"batch\"><col class=\"number\"><col></colgroup>
      <thead>
        <tr class=\"heading\"><td colspan=\"4\"><bdi id=\"list-election\"></bdi><br>Seed <span id=\"list-seed\"></span>, size <span id=\"list-size\"></span></td></tr>
        <tr><th class=\"box\" scope=\"col\">Got</th><th scope=\"col\">Batch</th><th class=\"number\" scope=\"col\">Number</th><th scope=\"col\">Card</th></tr>
      </thead>
      <tbody id=\"rows\"></tbody>
    </table>
  </section>
  <section id=\"read\" aria-labelledby=\"title\" hidden>
    <nav class=\"bar\" aria-label=\"Contests\">
      <button type=\"button\" id=\"previous\" aria-keyshortcuts=\"P\">Previous<kbd>P</kbd></button>
      <button type=\"button\" id=\"next\" aria-keyshortcuts=\"N\">Next<kbd>N</kbd></button>
      <button type=\"button\" id=\"unread\" aria-keyshortcuts=\"F\">First unread<kbd>F</kbd></button>
      <label for=\"place\">Ballot</label>
      <input type=\"text\" id=\"place\" inputmode=\"numeric\" autocomplete=\"off\" maxlength=\"5\" size=\"5\" aria-describedby=\"of-all\">
      <span id=\"of-all\" class=\"quiet\"></span>
    </nav>
    <div>
      <h2 id=\"title\" tabindex=\"-1\"></h2>
      <p id=\"card\" class=\"quiet\"></p>
    </div>
    <div>
      <h3 id=\"contest\"></h3>
      <p id=\"where\" class=\"quiet\"></p>
    </div>
    <div>
      <p id=\"state\" class=\"state\"></p>
      <p id=\"live\" class=\"live\" role=\"status\" aria-live=\"polite\"></p>
    </div>
    <fieldset id=\"choices\" aria-labelledby=\"contest\">
      <ol id=\"options\" class=\"options\"></ol>
    </fieldset>
    <div class=\"rulings\">
      <button type=\"button\" id=\"blank\" aria-keyshortcuts=\"B\">Blank<kbd>B</kbd></button>
      <button type=\"button\" id=\"overvoted\" aria-keyshortcuts=\"O\">Overvoted<kbd>O</kbd></button>
      <button type=\"button\" id=\"absent\" aria-keyshortcuts=\"X\">Not on this ballot<kbd>X</kbd></button>
      <button type=\"button\" id=\"lost\" aria-keyshortcuts=\"U\">Ballot can't be found<kbd>U</kbd></button>
    </div>
    <p><button type=\"button\" id=\"more\" aria-keyshortcuts=\"Plus\" aria-expanded=\"false\" aria-controls=\"others\">Another contest is on this ballot<kbd>+</kbd></button></p>
",
    "    <div id=\"others\" class=\"others\" hidden>
      <label for=\"other\">The contest that stands on this paper too</label>
      <select id=\"other\" size=\"6\"></select>
      <div class=\"bar\">
        <button type=\"button\" id=\"add\" class=\"main\">Add it to this ballot<kbd>Enter</kbd></button>
        <button type=\"button\" id=\"leave\">Leave it<kbd>Esc</kbd></button>
      </div>
    </div>
    <p><button type=\"button\" id=\"confirm\" class=\"main\" aria-keyshortcuts=\"Enter\">It is so: go on<kbd>Enter</kbd></button></p>
    <ul class=\"keys\" aria-label=\"Keys\">
      <li><kbd>1</kbd>&hairsp;&ndash;&hairsp;<kbd>9</kbd> and letters: the options</li>
      <li><kbd>B</kbd> blank</li>
      <li><kbd>O</kbd> overvoted</li>
      <li><kbd>X</kbd> not on this ballot</li>
      <li><kbd>U</kbd> ballot can't be found</li>
      <li><kbd>+</kbd> another contest is on this ballot</li>
      <li><kbd>Enter</kbd> it is so: go on</li>
      <li><kbd>P</kbd> <kbd>N</kbd> previous, next</li>
      <li><kbd>F</kbd> first unread</li>
      <li><kbd>Esc</kbd> leave a field</li>
      <li><kbd>L</kbd> <kbd>R</kbd> <kbd>S</kbd> list, read, save</li>
    </ul>
  </section>
  <section id=\"save\" aria-labelledby=\"save-title\" hidden>
    <h2 id=\"save-title\" tabindex=\"-1\">The file of hands</h2>
    <p id=\"told\"></p>
    <label for=\"hand\" class=\"quiet\">The file, as it is saved</label>
    <textarea id=\"hand\" rows=\"9\" readonly spellcheck=\"false\" dir=\"ltr\"></textarea>
    <div class=\"bar\">
      <a id=\"save-hand\" class=\"button main\">Save the file of hands</a>
      <a id=\"save-board\" class=\"button\">Save the readings for another board</a>
      <span class=\"space\"></span>
      <button type=\"button\" id=\"forget\">Forget what was entered</button>
    </div>
    <h2>Two boards</h2>
    <p>Two boards read the same ballots, each by itself, and each saves its readings. Choose both files here, or the other board's alone to hold it against what was entered on this page. Where they differ, both look at the paper again and enter it anew.</p>
    <p><label for=\"boards\">Readings that were saved</label> <input type=\"file\" id=\"boards\" multiple></p>
    <p id=\"compared\" class=\"live\" role=\"status\" aria-live=\"polite\"></p>
    <ol id=\"differing\" class=\"differing\" aria-label=\"Where the boards differ\" hidden></ol>
  </section>
</main>
<script>
'use strict';

// ---- What stands in the page: one JSON object on each line ----

/** Ends the reading of the data where they aren't what the command writes. */
function demand(holds, what) {
  if (!holds) throw new Error(what);
}

const isCount = (value) => Number.isInteger(value) && value >= 0;
const isText = (value) => typeof value === 'string';
const isWord = (value) => isText(value) && /^[!-~]+$/.test(value);
const isList = (value, isOne) => Array.isArray(value) && value.every(isOne);
const isOption = (value) => value && isText(value.label) && isWord(value.name) && isCount(value.slot);

function checkFirst(first) {
  demand(isText(first.election) && /^[0-9a-f]{64}$/.test(first.seed), 'no election or no seed');
  demand(isCount(first.records) && isCount(first.size), 'no records or no size');
  demand(isList(first.contests, (one) => one && isWord(one.name) && isText(one.title)), 'a contest without a name');
  demand(first.contests.every((one) => isCount(one.seats) && one.seats > 0), 'a contest without seats');
  demand(first.contests.every((one) => isList(one.options, isOption) && one.options.length > 0), 'a contest without options');
  demand(isList(first.cards, (one) => one && isText(one.precinct) && isText(one.style)), 'a card without a name');
  demand(first.cards.every((one) => isList(one.contests, (place) => isCount(place) && place < first.contests.length)), 'a card without contests');
}

/** The election's title, contests and cards, the seed, the size, the number of records, and the ballots. */
function readData(text) {
  const lines = text.split('\\n').filter((line) => line !== '');
  let at = 0;
  const next = () => JSON.parse(lines[at++]);
",
    "  try {
    demand(lines.length >= 2, 'it is not whole');
    const first = next();
    checkFirst(first);
    const ballots = [];
    while (at < lines.length - 1) {
      const { batch, card, name, number } = next();
      demand(isWord(batch) && isWord(name) && isCount(number), 'a ballot without a name');
      demand(isCount(card) && card < first.cards.length, 'a ballot without a card');
      ballots.push({ batch, card, name, number });
    }
    demand(next().ballots === ballots.length, 'ballots are missing');
    return { ...first, ballots };
  } catch (fault) {
    throw new Error(`line ${at} of its data: ${fault.message}`);
  }
}

/** A number for the data, so that what is kept belongs to this page (cyrb53; nothing is secret here). */
function sumOf(text) {
  let a = 0xdeadbeef;
  let b = 0x41c6ce57;
  for (let at = 0; at < text.length; at++) {
    const code = text.charCodeAt(at);
    a = Math.imul(a ^ code, 2654435761);
    b = Math.imul(b ^ code, 1597334677);
  }
  a = Math.imul(a ^ (a >>> 16), 2246822507) ^ Math.imul(b ^ (b >>> 13), 3266489909);
  b = Math.imul(b ^ (b >>> 16), 2246822507) ^ Math.imul(a ^ (a >>> 13), 3266489909);
  return (4294967296 * (2097151 & b) + (a >>> 0)).toString(16);
}

// ---- What a board says of a contest ----
//
// A statement is a text: '-' blank, 'o' overvoted, 'x' not on this ballot, or 'v' and the numbers of the options with
// a vote, ascending, as 'v 0 2'. Where nothing was said it is null. A reading of a ballot has the numbers of contests
// that stand on the paper and not on its card, ascending, a statement for each contest of the card and behind them
// for each of those, and whether the ballot can't be found. A contest that was added and isn't there is taken away.

const BLANK = '-';
const OVERVOTED = 'o';
const ABSENT = 'x';
const RULINGS = [BLANK, OVERVOTED, ABSENT];
const LOST_TOLD = 'This ballot is told as one that can\\'t be found: press U if it is here.';

const numbersOf = (said) => (said === null || RULINGS.includes(said) ? [] : said.split(' ').slice(1).map(Number));

/** Whether a text is a statement of a contest. */
function isStatement(contest, said) {
  if (said === null || RULINGS.includes(said)) return true;
  if (!isText(said) || !/^v( (0|[1-9][0-9]{0,2}))+$/.test(said)) return false;
  const numbers = numbersOf(said);
  return numbers.length <= contest.seats && numbers.every((number, at) =>
    number < contest.options.length && (at === 0 || numbers[at - 1] < number));
}

const cardContests = (place) => data.cards[data.ballots[place].card].contests;
const newReading = (place) => ({ said: cardContests(place).map(() => null), added: [], isLost: false });
const isTouched = (reading) => reading.isLost || reading.added.length > 0 || reading.said.some((said) => said !== null);

/** The numbers of a ballot's contests: those of its card, and behind them those that were added. */
const numbersOn = (place, reading = readings()[place]) => [...cardContests(place), ...reading.added];
const contestsOf = (place, reading) => numbersOn(place, reading).map((number) => data.contests[number]);
const isAdded = (place, at) => at >= cardContests(place).length;

/** Whether these are contests of the election that the card hasn't, ascending. */
function areAdded(place, added) {
  return isList(added, isCount) && added.every((number, at) =>
    number < data.contests.length && !cardContests(place).includes(number) && (at === 0 || added[at - 1] < number));
}

function isReading(place, reading) {
  if (!reading || typeof reading.isLost !== 'boolean' || !Array.isArray(reading.said) || !areAdded(place, reading.added)) return false;
  const contests = contestsOf(place, reading);
  return reading.said.length === contests.length && reading.said.every((said, at) =>
    isStatement(contests[at], said) && !(said === ABSENT && isAdded(place, at)));
}

/** What a reading says of a contest by its number: of one that the ballot hasn't, that it isn't there. */
",
    "function saidOf(place, reading, number) {
  const at = numbersOn(place, reading).indexOf(number);
  return at === -1 ? ABSENT : reading.said[at];
}

/** A reading in which one contest more stands on the paper. */
function withContest(place, reading, number, said) {
  const added = [...reading.added, number].sort((one, other) => one - other);
  const at = cardContests(place).length + added.indexOf(number);
  return { ...reading, said: [...reading.said.slice(0, at), said, ...reading.said.slice(at)], added };
}

/** The same without one that was added. */
function withoutContest(place, reading, number) {
  const at = numbersOn(place, reading).indexOf(number);
  return { ...reading, said: reading.said.filter((_, other) => other !== at), added: reading.added.filter((one) => one !== number) };
}

/** The option's name for people; a write-in slot is told by its number. */
const labelOf = (option) => (option.slot === 0 ? option.label : `Write-in ${option.slot}`);

/** A statement in words. */
function toldOf(contest, said) {
  if (said === null) return 'Not read yet.';
  if (said === BLANK) return 'Read: blank, no vote.';
  if (said === OVERVOTED) return 'Read: overvoted. No option gets a vote.';
  if (said === ABSENT) return 'Read: the contest is not on this ballot.';
  return `Read: ${numbersOf(said).map((number) => isolated(labelOf(contest.options[number]))).join('; ')}.`;
}

/** The line of the file of hands for a statement, or none. */
function lineOf(ballot, contest, said) {
  if (said === null || said === ABSENT) return '';
  const names = numbersOf(said).map((number) => contest.options[number].name);
  return `hand ${ballot.name} ${contest.name} ${names.length === 0 ? '-' : names.join(' ')}\\n`;
}

/** The file of hands: a line for each contest with a statement, in the order of the list. */
function handOf(readings) {
  return readings.map((reading, place) => {
    if (reading.isLost) return '';
    const contests = contestsOf(place, reading);
    return reading.said.map((said, at) => lineOf(data.ballots[place], contests[at], said)).join('');
  }).join('');
}

/** A text from the definition within one of the page's own, so that its direction stays its own. */
const isolated = (text) => `\\u2068${text}\\u2069`;

// ---- The page ----

const find = (id) => document.getElementById(id);
const text = find('data').textContent;
const VIEWS = ['fetch', 'read', 'save'];
// The keys of the first options: the letters that aren't keys of the page.
const OPTION_KEYS = '123456789acdeghijkmqtvwyz';
let data;
let key = '';
let sum = '';
let isKept = true;
// The board's own readings, those of two boards together if they were loaded, and where the two differed.
let own = [];
let both = null;
let differing = [];
let isTogether = false;
let ticked = new Set();
let view = 'fetch';
// The ballot and the contest that are shown, and what is entered of it and isn't said yet.
let shown = 0;
let at = 0;
let draft = null;

const readings = () => (isTogether ? both : own);
const reading = () => readings()[shown];
const contest = () => contestsOf(shown)[at];

function make(tag, className, content) {
  const element = document.createElement(tag);
  if (className) element.className = className;
  if (content !== undefined) element.textContent = content;
  return element;
}

/** An element for a text of the definition, which has its own direction. */
function makeBdi(content) {
  const element = make('bdi', '', content);
  element.dir = 'auto';
  return element;
}

function say(message, isWrong) {
  find('live').textContent = message;
  find('live').classList.toggle('wrong', Boolean(isWrong));
  if (isWrong) find('live').scrollIntoView({ block: 'nearest' });
}

const placeOf = (ballot) => `Batch ${ballot.batch}, number ${ballot.number}`;

// ---- What is kept when the page is reloaded ----

/** The readings of which something was said, by the ballots' places. */
function touched(some) {
",
    "  return Object.fromEntries(some.flatMap((one, place) => (isTouched(one) ? [[place, one]] : [])));
}

function keep() {
  const kept = {
    own: touched(own), both: both === null ? null : touched(both), differing, isTogether,
    ticked: [...ticked], view, shown, at, letters: find('letters').checked,
  };
  try {
    localStorage.setItem(key, JSON.stringify(kept));
  } catch (fault) {
    isKept = false;
    find('unkept').hidden = false;
  }
}

/** Readings by their places, each of which is one of its ballot; the others are new ones. */
function filled(kept) {
  return data.ballots.map((ballot, place) => {
    const one = kept && kept[place];
    return isReading(place, one) ? { said: [...one.said], added: [...one.added], isLost: one.isLost } : newReading(place);
  });
}

/** A ballot's place, and the number of a contest or null. */
const isPair = (pair) => Array.isArray(pair) && pair.length === 2 && isCount(pair[0]) && pair[0] < data.ballots.length
  && (pair[1] === null || (isCount(pair[1]) && pair[1] < data.contests.length));

function takeKept() {
  let kept = null;
  try {
    kept = JSON.parse(localStorage.getItem(key));
    localStorage.setItem(`${key}?`, '');
    localStorage.removeItem(`${key}?`);
  } catch (fault) {
    isKept = fault instanceof SyntaxError;
    find('unkept').hidden = isKept;
  }
  if (kept === null || typeof kept !== 'object') kept = {};
  own = filled(kept.own);
  if (kept.both && isList(kept.differing, isPair)) {
    both = filled(kept.both);
    differing = kept.differing;
    isTogether = kept.isTogether === true;
  }
  if (isList(kept.ticked, isCount)) ticked = new Set(kept.ticked);
  if (VIEWS.includes(kept.view)) view = kept.view;
  if (isCount(kept.shown) && kept.shown < data.ballots.length && isCount(kept.at) && kept.at <= lastOn(kept.shown)) [shown, at] = [kept.shown, kept.at];
  find('letters').checked = kept.letters !== false;
}

function forget() {
  if (!confirm('Forget everything that was entered on this page?')) return;
  try {
    localStorage.removeItem(key);
  } catch (fault) {
    isKept = false;
  }
  own = filled(null);
  [both, differing, isTogether, ticked, shown, at] = [null, [], false, new Set(), 0, 0];
  for (const box of find('rows').querySelectorAll('input')) box.checked = false;
  find('compared').textContent = '';
  show();
}

// ---- Two windows: each that opens asks, and each that is open answers ----

function watchWindows() {
  const line = `${key} window`;
  const tell = (word) => {
    try {
      localStorage.setItem(line, `${word} ${Math.random()}`);
    } catch (fault) {
      isKept = false;
    }
  };
  window.addEventListener('storage', (event) => {
    if (event.key !== key && event.key !== line) return;
    find('twice').hidden = false;
    if (event.key === line && isText(event.newValue) && event.newValue.startsWith('asks')) tell('answers');
  });
  tell('asks');
}

// ---- The list to fetch ----

function cardOf(ballot) {
  const { precinct, style } = data.cards[ballot.card];
  return `${isolated(precinct)}, style ${isolated(style)}`;
}

function rowOf(ballot, place) {
  const isFirst = place > 0 && data.ballots[place - 1].batch !== ballot.batch;
  const row = make('tr', isFirst ? 'first' : '');
  const box = make('input');
  box.type = 'checkbox';
  box.checked = ticked.has(place);
  box.setAttribute('aria-label', placeOf(ballot));
  box.addEventListener('change', () => {
    if (box.checked) ticked.add(place);
    else ticked.delete(place);
    keep();
  });
  const cells = [make('td', 'box'), make('td', '', ballot.batch), make('td', 'number', String(ballot.number)), make('td', '', cardOf(ballot))];
  cells[0].append(box);
  row.append(...cells);
  return row;
}

function showList() {
  const count = data.ballots.length;
  const batches = new Set(data.ballots.map((ballot) => ballot.batch)).size;
",
    "  find('fetch-told').textContent = `${count} of ${data.records} ballots were drawn, in ${batches} batches. Fetch each by its batch and its number in it, in the order of boxes, and tick it when it is here.`;
  find('rows').replaceChildren(...data.ballots.map(rowOf));
}

// ---- A contest of a ballot ----

/** What is entered of the contest that is shown: it begins as what was said. */
function newDraft() {
  const said = reading().said[at] ?? null;
  return { ruling: RULINGS.includes(said) ? said : null, numbers: new Set(numbersOf(said)) };
}

/** The statement that a draft makes, or null where nothing is entered. */
function statementOf(entered) {
  if (entered.ruling !== null) return entered.ruling;
  if (entered.numbers.size === 0) return null;
  return `v ${[...entered.numbers].sort((one, other) => one - other).join(' ')}`;
}

function showOption(option, number) {
  const line = make('li');
  const button = make('button');
  button.type = 'button';
  button.append(number < OPTION_KEYS.length ? make('kbd', '', OPTION_KEYS[number].toUpperCase()) : make('span'), makeBdi(labelOf(option)));
  button.addEventListener('click', () => toggle(number));
  line.append(button);
  return line;
}

/** Puts what was entered into the controls, which stay as they are otherwise. */
function showDraft() {
  const { isLost } = reading();
  [...find('options').children].forEach((line, number) =>
    line.firstChild.setAttribute('aria-pressed', String(!isLost && draft.numbers.has(number))));
  for (const [id, ruling] of [['blank', BLANK], ['overvoted', OVERVOTED], ['absent', ABSENT]]) {
    find(id).setAttribute('aria-pressed', String(!isLost && draft.ruling === ruling));
  }
  find('lost').setAttribute('aria-pressed', String(isLost));
  const said = reading().said[at] ?? null;
  const entered = statementOf(draft);
  const isSaid = isLost || (said !== null && said === entered);
  if (isLost) find('state').textContent = 'This ballot can\\'t be found: nothing is read of it.';
  else if (contest() === undefined) find('state').textContent = 'This card has no contest.';
  else if (said === entered) find('state').textContent = toldOf(contest(), said);
  else find('state').textContent = 'Entered, and not said yet: press Enter.';
  find('state').classList.toggle('done', isSaid);
}

function showBallot() {
  const ballot = data.ballots[shown];
  const contests = contestsOf(shown);
  draft = newDraft();
  find('title').textContent = placeOf(ballot);
  find('card').textContent = `${cardOf(ballot)}. Ballot ${shown + 1} of ${data.ballots.length}.`;
  find('place').value = String(shown + 1);
  find('contest').replaceChildren(makeBdi(contests.length === 0 ? '' : contest().title));
  const which = `Contest ${at + 1} of ${contests.length}${isAdded(shown, at) ? ', which was added to this ballot' : ''}.`;
  find('where').textContent = contests.length === 0 ? '' : `${which} Votes for at most ${contest().seats}.`;
  find('options').replaceChildren(...(contests.length === 0 ? [] : contest().options.map(showOption)));
  openOthers(false);
  showDraft();
}

/** Changes what is entered; it isn't said before it is confirmed. */
function change(how) {
  if (contest() === undefined) return;
  if (reading().isLost) {
    say(LOST_TOLD, true);
    return;
  }
  how();
  showDraft();
  say('');
}

function toggle(number) {
  if (contest() === undefined || number >= contest().options.length) return;
  change(() => {
    draft.ruling = null;
    if (!draft.numbers.delete(number)) draft.numbers.add(number);
  });
}

function rule(ruling) {
  change(() => {
    draft.numbers.clear();
    draft.ruling = draft.ruling === ruling ? null : ruling;
  });
}

function toggleLost() {
  reading().isLost = !reading().isLost;
  draft = newDraft();
  openOthers(false);
  showDraft();
  showCount();
  keep();
  say(reading().isLost ? 'The ballot can\\'t be found. Enter goes on to the next one.' : 'The ballot is here: read it.');
}

",
    "/** Says what is entered, and goes on to the next contest of which nothing was said. */
function confirmDraft() {
  if (!reading().isLost && contest() !== undefined) {
    const said = statementOf(draft);
    if (said === null) {
      say('Say what the paper has: the votes, blank, overvoted, or that the contest is not on this ballot.', true);
      return;
    }
    if (!isStatement(contest(), said)) {
      say(`${draft.numbers.size} have a vote and ${contest().seats} may: take votes away, or say overvoted.`, true);
      return;
    }
    if (said === ABSENT && isAdded(shown, at)) {
      takeAway();
      return;
    }
    reading().said[at] = said;
  }
  const told = reading().isLost || contest() === undefined ? find('state').textContent : toldOf(contest(), reading().said[at]);
  goOn(`${placeOf(data.ballots[shown])}: ${told}`, reading().isLost ? contestsOf(shown).length : at);
}

/** Goes on behind a contest of the ballot, and says what was done. */
function goOn(last, behind) {
  showCount();
  const isOver = !goToUnread([shown, behind]);
  keep();
  say(isOver ? `${last} Everything is read: save the file.` : last);
}

// ---- Contests that stand on the paper and not on the card ----

const numbersOff = (place) => data.contests.map((_, number) => number).filter((number) => !numbersOn(place).includes(number));

function openOthers(isOpen) {
  find('others').hidden = !isOpen;
  find('more').setAttribute('aria-expanded', String(isOpen));
}

function makeOther(number) {
  const { title, name } = data.contests[number];
  const element = make('option', '', `${title} (${name})`);
  element.dir = 'auto';
  element.value = String(number);
  return element;
}

function toggleOthers() {
  if (!find('others').hidden) {
    leaveOthers();
    return;
  }
  const others = numbersOff(shown);
  if (reading().isLost) say(LOST_TOLD, true);
  else if (others.length === 0) say('Every contest of the election is on this ballot.', true);
  else {
    find('other').replaceChildren(...others.map(makeOther));
    find('other').selectedIndex = 0;
    openOthers(true);
    find('other').focus();
    say('Choose the contest that stands on this paper too.');
  }
}

function leaveOthers() {
  openOthers(false);
  find('title').focus({ preventScroll: true });
  say('');
}

/** Replaces the reading of the ballot that is shown. */
function become(changed) {
  readings()[shown] = changed;
  showCount();
}

function addOther() {
  const number = Number(find('other').value);
  if (find('other').value === '' || !numbersOff(shown).includes(number)) return;
  become(withContest(shown, reading(), number, null));
  goTo(shown, numbersOn(shown).indexOf(number));
  say(`Added to this ballot: ${isolated(contest().title)}. Say what the paper has, or that it is not on this ballot.`);
}

/** Takes the contest that is shown away again, which was added. */
function takeAway() {
  const { title } = contest();
  become(withoutContest(shown, reading(), numbersOn(shown)[at]));
  at = Math.min(at, lastOn(shown));
  goOn(`${placeOf(data.ballots[shown])}: ${isolated(title)} was taken away again.`, at - 1);
}

// ---- From contest to contest ----

function goTo(place, number) {
  [shown, at] = [place, number];
  showBallot();
  keep();
  find('title').focus();
}

/** The last place for a contest on a ballot; a card without contests has one too. */
const lastOn = (place) => Math.max(contestsOf(place).length - 1, 0);

function goNext() {
  say('');
  if (at < lastOn(shown)) goTo(shown, at + 1);
  else if (shown + 1 < data.ballots.length) goTo(shown + 1, 0);
}

function goBack() {
  say('');
  if (at > 0) goTo(shown, at - 1);
  else if (shown > 0) goTo(shown - 1, lastOn(shown - 1));
}

/** Goes to the first unread contest behind a place, or from the beginning on; false where there is none. */
function goToUnread(behind) {
  let before = null;
  for (let place = 0; place < data.ballots.length; place++) {
    const one = readings()[place];
",
    "    for (let number = 0; !one.isLost && number < one.said.length; number++) {
      if (one.said[number] !== null) continue;
      const isBehind = place > behind[0] || (place === behind[0] && number > behind[1]);
      if (before === null) before = [place, number];
      if (isBehind) {
        goTo(place, number);
        return true;
      }
    }
  }
  if (before !== null) goTo(...before);
  else showBallot();
  return before !== null;
}

function goToFirst() {
  say('');
  if (!goToUnread([-1, -1])) say('Everything is read: save the file.');
}

function goToBallot() {
  const number = Number(find('place').value);
  if (Number.isInteger(number) && number >= 1 && number <= data.ballots.length) goTo(number - 1, 0);
  else find('place').value = String(shown + 1);
}

// ---- What is saved ----

/** How many contests are there, how many were read, and how many ballots can't be found. */
function sums() {
  const all = { contests: 0, done: 0, lost: 0 };
  for (const one of readings()) {
    if (one.isLost) {
      all.lost += 1;
      continue;
    }
    all.contests += one.said.length;
    for (const said of one.said) all.done += said === null ? 0 : 1;
  }
  return all;
}

function showCount() {
  const { contests, done, lost } = sums();
  find('count').textContent = `${done} of ${contests} contests read, ${contests - done} left${lost === 0 ? '' : `; ${lost} ballots can't be found`}.`;
  find('bar').max = contests || 1;
  find('bar').value = contests === 0 ? 1 : done;
}

let addresses = [];

function offer(id, content, name) {
  const address = URL.createObjectURL(new Blob([content], { type: 'text/plain' }));
  addresses.push(address);
  find(id).href = address;
  find(id).download = name;
}

/** The readings as another page takes them: of which sample they are, and one for each ballot. */
function boardOf(some) {
  const { election, seed, size } = data;
  return `${JSON.stringify({ data: sum, election, readings: some, seed, size })}\\n`;
}

function showResult() {
  const { contests, done, lost } = sums();
  const left = contests - done;
  const hand = handOf(readings());
  find('hand').value = hand;
  if (data.ballots.length === 0) find('told').textContent = 'No ballot was drawn: the file is empty.';
  else if (left > 0) find('told').textContent = `${left} contests are not read yet, and not in the file.`;
  else find('told').textContent = 'Every contest is read.';
  if (lost > 0) find('told').textContent += ` ${lost} ballots can't be found: they have no line, and the comparison tells them as missing.`;
  addresses.forEach((address) => URL.revokeObjectURL(address));
  addresses = [];
  const name = `${data.seed.slice(0, 8)}-${data.size}.txt`;
  offer('save-hand', hand, `hand-${name}`);
  offer('save-board', boardOf(readings()), `board-${name}`);
  showDiffering();
}

// ---- Two boards ----

/** The readings of a file that a page of the same sample saved; an error says why it is none. */
function readBoard(content) {
  let kept = null;
  try {
    kept = JSON.parse(content);
  } catch (fault) {
    throw new Error('it has no readings');
  }
  demand(kept !== null && typeof kept === 'object' && Array.isArray(kept.readings), 'it has no readings');
  const isSame = kept.data === sum && kept.election === data.election && kept.seed === data.seed && kept.size === data.size;
  demand(isSame, 'it is of another sample');
  demand(kept.readings.length === data.ballots.length && kept.readings.every((one, place) => isReading(place, one)), 'its readings are damaged');
  return kept.readings;
}

/** Puts the readings of two boards together: what both say alike stays, and what they say otherwise is to be read anew. */
function putTogether(one, other) {
  differing = [];
  both = data.ballots.map((ballot, place) => {
    const [first, second] = [one[place], other[place]];
    if (first.isLost && second.isLost) return { ...newReading(place), isLost: true };
    if (first.isLost !== second.isLost) {
      differing.push([place, null]);
",
    "      return newReading(place);
    }
    const added = [...new Set([...first.added, ...second.added])].sort((one, other) => one - other);
    const said = [...cardContests(place), ...added].map((number) => {
      const answer = saidOf(place, first, number);
      if (answer === saidOf(place, second, number)) return answer;
      differing.push([place, number]);
      return null;
    });
    return { said, added, isLost: false };
  });
  isTogether = true;
}

function isReadAnew([place, number]) {
  const one = both[place];
  return one.isLost || (number === null ? one.said.every((said) => said !== null) : saidOf(place, one, number) !== null);
}

function showDiffering() {
  find('together').hidden = !isTogether;
  find('differing').hidden = !isTogether || differing.length === 0;
  if (!isTogether) {
    find('differing').replaceChildren();
    return;
  }
  find('differing').replaceChildren(...differing.map((pair) => {
    const [place, number] = pair;
    const isDone = isReadAnew(pair);
    const what = number === null ? 'whether it can be found' : isolated(data.contests[number].title);
    return make('li', isDone ? 'done' : '', `${placeOf(data.ballots[place])}: ${what}${isDone ? ' (read anew)' : ''}`);
  }));
}

async function compareBoards() {
  const files = [...find('boards').files];
  if (files.length === 0) return;
  find('compared').classList.remove('wrong');
  const taken = [];
  try {
    demand(files.length <= 2, 'at most two files can be held together');
    for (const file of files) {
      try {
        taken.push(readBoard(await file.text()));
      } catch (fault) {
        throw new Error(`${isolated(file.name)}: ${fault.message}`);
      }
    }
  } catch (fault) {
    find('compared').textContent = `Nothing was taken. ${fault.message}.`;
    find('compared').classList.add('wrong');
    find('boards').value = '';
    return;
  }
  putTogether(taken.length === 2 ? taken[0] : own, taken[taken.length - 1]);
  find('boards').value = '';
  [shown, at] = differing.length === 0 ? [0, 0] : [differing[0][0], Math.max(numbersOn(differing[0][0]).indexOf(differing[0][1]), 0)];
  keep();
  show();
  find('compared').textContent = differing.length === 0
    ? 'The two boards say the same of everything.'
    : `The two boards differ in ${differing.length} places: look at the paper again, both, and enter them anew (R).`;
}

function goApart() {
  isTogether = false;
  [shown, at] = [0, 0];
  find('compared').textContent = '';
  keep();
  show();
}

// ---- Keys ----

const isField = (element) => element instanceof Element && element.matches('input[type=\"text\"], textarea, select');

// An option is pressed by its key, a click or the space bar: Enter says what is entered, wherever an option has the focus.
const isControl = (element) => element instanceof Element && element.matches('button, a, input');
const isChoice = (element) => element.closest('#choices, .rulings') !== null;

const VIEW_KEYS = { l: () => goToView('fetch'), r: () => goToView('read'), s: () => goToView('save') };
const READ_KEYS = {
  b: () => rule(BLANK),
  o: () => rule(OVERVOTED),
  x: () => rule(ABSENT),
  u: toggleLost,
  p: goBack,
  n: goNext,
  f: goToFirst,
  '+': toggleOthers,
};

/** Does what a key is for; false where it is for nothing here. */
function obey(name) {
  if (Object.hasOwn(VIEW_KEYS, name)) VIEW_KEYS[name]();
  else if (view !== 'read') return false;
  else if (Object.hasOwn(READ_KEYS, name)) READ_KEYS[name]();
  else if (name.length === 1 && OPTION_KEYS.includes(name)) toggle(OPTION_KEYS.indexOf(name));
  else return false;
  return true;
}

function onKey(event) {
  if (data.ballots.length === 0 || event.isComposing || event.altKey || event.metaKey || event.ctrlKey) return;
  const name = event.key.toLowerCase();
  if (isField(event.target)) {
    if (name === 'escape' && event.target === find('other')) leaveOthers();
    else if (name === 'escape') find(view === 'read' ? 'title' : 'save-title').focus({ preventScroll: true });
",
    "    else if (name === 'enter' && event.target === find('place')) goToBallot();
    else if (name === 'enter' && event.target === find('other')) addOther();
    else return;
  } else if (name === 'escape') {
    if (view !== 'read' || find('others').hidden) return;
    leaveOthers();
  } else if (name === 'enter') {
    if (view !== 'read' || (isControl(event.target) && !isChoice(event.target))) return;
    confirmDraft();
  } else if (!find('letters').checked || !obey(name)) {
    return;
  }
  event.preventDefault();
}

function goToView(name) {
  view = name;
  keep();
  show();
  find(name === 'read' ? 'title' : `${name}-title`).focus({ preventScroll: true });
}

function show() {
  for (const name of VIEWS) {
    find(name).hidden = view !== name;
    find(`to-${name}`).setAttribute('aria-current', String(view === name));
  }
  find('together').hidden = !isTogether;
  showCount();
  say('');
  if (data.ballots.length > 0) showBallot();
  if (view === 'save') showResult();
}

function watch() {
  const on = (id, what, does) => find(id).addEventListener(what, does);
  for (const name of VIEWS) on(`to-${name}`, 'click', () => goToView(name));
  on('print', 'click', () => window.print());
  on('previous', 'click', goBack);
  on('next', 'click', goNext);
  on('unread', 'click', goToFirst);
  on('place', 'change', goToBallot);
  on('blank', 'click', () => rule(BLANK));
  on('overvoted', 'click', () => rule(OVERVOTED));
  on('absent', 'click', () => rule(ABSENT));
  on('lost', 'click', toggleLost);
  on('more', 'click', toggleOthers);
  on('add', 'click', addOther);
  on('leave', 'click', leaveOthers);
  on('confirm', 'click', confirmDraft);
  on('forget', 'click', forget);
  on('boards', 'change', compareBoards);
  on('apart', 'click', goApart);
  on('letters', 'change', keep);
  document.addEventListener('keydown', onKey);
  window.addEventListener('beforeunload', (event) => {
    if (!isKept && readings().some(isTouched)) event.preventDefault();
  });
}

// ---- The beginning ----

function begin() {
  data = readData(text);
  sum = sumOf(text);
  key = `board ${data.seed} ${data.size} ${sum} ${data.election}`;
  find('election').textContent = data.election;
  find('election').dir = 'auto';
  find('seed').textContent = data.seed;
  find('size').textContent = String(data.size);
  find('list-election').textContent = data.election;
  find('list-election').dir = 'auto';
  find('list-seed').textContent = data.seed;
  find('list-size').textContent = String(data.size);
  find('of-all').textContent = `of ${data.ballots.length}`;
  document.title = `Audit board: ${data.ballots.length} ballots`;
  takeKept();
  if (data.ballots.length === 0) {
    view = 'fetch';
    find('to-read').disabled = true;
  }
  find('views').hidden = false;
  showList();
  watch();
  show();
  watchWindows();
}

find('unwhole').hidden = true;
try {
  begin();
} catch (fault) {
  find('damaged').hidden = false;
  find('damaged').textContent = `This page is damaged and nothing can be entered on it: make it anew. (${fault.message})`;
  for (const id of ['views', 'fetch', 'read', 'save']) find(id).hidden = true;
}
</script>
</body>
</html>
",
];

/// Adds what stands before the data.
pub fn push_head(text: &mut Bytes) -> Result<(), OutOfMemory>
    ensures { OnOk result (text.new ≡ text.old ++ head) }
{
    push_pieces(text, &HEAD)
}

/// Adds what stands behind the data.
pub fn push_tail(text: &mut Bytes) -> Result<(), OutOfMemory>
    ensures { OnOk result (text.new ≡ text.old ++ tail) }
{
    push_pieces(text, &TAIL)
}
