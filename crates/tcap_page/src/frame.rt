//! The frame of a page. dev/page.py writes this file from the files in page/.

/// The frame of a page before its objects of JSON: the style, the script, and the elements that the script fills.
pub const FRAME_HEAD: &str = r##"<!doctype html>
<html lang="en">
<head>
<meta charset="utf-8">
<meta name="viewport" content="width=device-width, initial-scale=1">
<meta http-equiv="Content-Security-Policy" content="default-src 'none'; base-uri 'none'; form-action 'none'; img-src data:; style-src 'sha256-pGEs1PkuiP9I2q6Z3MG7N5H82xG5Crjr7KwNfCQkkLw='; script-src 'sha256-7NrpOjj36mRyrQeJYgkdZBf3QmKZxA7KISThoNdPsIc='">
<meta name="referrer" content="no-referrer">
<title>TCAP dialogues, judged</title>
<link rel="icon" href="data:,">
<style>
:root {
  color-scheme: light dark;
  --ground: #ffffff;
  --panel: #f5f6f8;
  --ink: #1b1f24;
  --muted: #59626d;
  --rule: #d3d8de;
  --strong: #848d97;
  --focus: #0b57d0;
  --chosen: #e3edfb;
  --fail: #b3261e;
  --fail-ground: #fdecea;
  --inconc-ground: #fff4df;
  --inconc: #8a5700;
  --error: #6b2fa0;
  --pass: #1a6b3c;
  --mono: ui-monospace, "DejaVu Sans Mono", Menlo, Consolas, monospace;
}

@media (prefers-color-scheme: dark) {
  :root {
    --ground: #14171a;
    --panel: #1c2025;
    --ink: #e3e6ea;
    --muted: #9da7b1;
    --rule: #343b43;
    --strong: #7d8792;
    --focus: #8ab4f8;
    --chosen: #22334d;
    --fail: #ff8f86;
    --fail-ground: #3a1d1c;
    --inconc-ground: #33270f;
    --inconc: #f0b64f;
    --error: #cba6f7;
    --pass: #7fd19b;
  }
}

* { box-sizing: border-box; }

body {
  display: grid;
  grid-template-rows: auto auto minmax(0, 1fr);
  height: 100vh;
  margin: 0;
  background: var(--ground);
  color: var(--ink);
  font: 13px/1.45 system-ui, "Segoe UI", "DejaVu Sans", sans-serif;
}

h1, h2, h3, p, dl, dd, ol, pre, table { margin: 0; padding: 0; }
h1 { font-size: 16px; }
h2 { font-size: 15px; overflow-wrap: anywhere; }
h3 { font-size: 13px; }
code, pre, .name, .number { font-family: var(--mono); font-size: 12px; }
h2 .name { font-size: 14px; }
code, .name { overflow-wrap: anywhere; unicode-bidi: isolate; }
.small { color: var(--muted); }
.unseen { position: absolute; width: 1px; height: 1px; overflow: hidden; clip-path: inset(50%); }
.note { padding: 4px 8px; border-left: 4px solid var(--inconc); background: var(--panel); }
.empty { padding: 16px; color: var(--muted); }
:focus-visible { outline: 2px solid var(--focus); outline-offset: -2px; }

button, select, input {
  padding: 3px 7px;
  border: 1px solid var(--strong);
  border-radius: 3px;
  background: var(--ground);
  color: var(--ink);
  font: inherit;
}
button { cursor: pointer; }
button:disabled { border-color: var(--rule); color: var(--muted); cursor: default; }

.badge {
  display: inline-block;
  padding: 0 5px;
  border: 1px solid;
  border-radius: 3px;
  font: 600 11px/16px var(--mono);
}
.badge.fail { color: var(--fail); border-width: 1px 1px 1px 4px; }
.badge.inconc { color: var(--inconc); border-style: dashed; }
.badge.error { color: var(--error); border-style: double; border-width: 3px; line-height: 12px; }
.badge.pass { color: var(--pass); border-color: transparent; }

header { display: flex; flex-wrap: wrap; gap: 6px 28px; align-items: center; padding: 8px 12px; }
#sums { display: flex; flex-wrap: wrap; gap: 4px 20px; align-items: center; }
#notes { display: grid; gap: 4px; }
#version { overflow-wrap: anywhere; }
#version:empty { display: none; }
#kinds { min-width: 0; }
#kinds[open] { flex-basis: 100%; }
#kinds summary { cursor: pointer; }
#kinds dl { columns: 3 320px; column-gap: 28px; max-height: 40vh; margin-top: 4px; overflow-y: auto; }
#kinds dl > div { display: flex; gap: 8px; break-inside: avoid; }
#kinds dt { flex: 0 0 26px; font: 600 12px/19px var(--mono); }
#sums table { border-collapse: collapse; font-variant-numeric: tabular-nums; }
#sums th, #sums td { padding: 1px 10px; text-align: right; }
#sums th[scope="row"] { padding-left: 0; text-align: left; font-weight: 600; }

#filters {
  display: flex;
  flex-wrap: wrap;
  gap: 6px 12px;
  align-items: end;
  padding: 6px 12px;
  border-block: 1px solid var(--rule);
  background: var(--panel);
}
#filters label { display: grid; color: var(--muted); font-size: 11px; }
#filters select, #filters input { width: 130px; font-size: 13px; }
#filters .words { flex: 1 1 180px; max-width: 340px; }
#filters .words input { width: 100%; }

main { display: grid; grid-template-columns: minmax(300px, 30%) minmax(0, 1fr); min-height: 0; }
#lists { display: grid; grid-template-rows: auto minmax(0, 1fr); min-height: 0; border-right: 1px solid var(--rule); }
[role="tablist"] { display: flex; border-bottom: 1px solid var(--rule); }
[role="tab"] {
  flex: 1;
  padding: 6px;
  border: 0;
  border-bottom: 3px solid transparent;
  border-radius: 0;
  color: var(--muted);
}
[role="tab"][aria-selected="true"] { border-bottom-color: var(--focus); color: var(--ink); font-weight: 600; }
.panel { min-height: 0; }
.panel[hidden] { display: none; }
.list { height: 100%; overflow-y: auto; }
.rows { position: relative; }
.row {
  position: absolute;
  display: grid;
  align-content: center;
  width: 100%;
  height: 62px;
  padding: 0 10px;
  overflow: hidden;
  border-bottom: 1px solid var(--rule);
  border-left: 4px solid transparent;
  cursor: pointer;
}
.row[aria-selected="true"] { border-left-color: var(--focus); background: var(--chosen); }
.upper, .lower { display: flex; gap: 8px; overflow: hidden; white-space: nowrap; }
.upper > * { flex: none; }
.upper > .name, .lower > * { flex: 0 1 auto; min-width: 0; overflow: hidden; text-overflow: ellipsis; }
.lower { color: var(--muted); }
.lower > code { white-space: pre; }
.lower > .name { flex-shrink: 20; }
.faults > span + span { flex-shrink: 1000; }

#shown { overflow-y: auto; min-width: 0; }
article { display: grid; gap: 8px; padding: 12px 16px; }
article > * { min-width: 0; }
article > button { justify-self: start; }
.heading .badge { vertical-align: 2px; }
.facts { display: flex; flex-wrap: wrap; gap: 2px 24px; }
.facts dt { color: var(--muted); font-size: 11px; }
.facts dd { overflow-wrap: anywhere; }
.summary { font-weight: 600; }
.summary .badge { min-width: 52px; text-align: center; }
.sentence { display: block; margin-left: 58px; font: 12px/1.5 var(--mono); overflow-wrap: anywhere; }
.lister { padding: 0 2px; border: 0; background: none; text-decoration: underline; text-underline-offset: 2px; }
.small .lister { color: inherit; }
.beside { display: grid; grid-template-columns: minmax(0, 1fr); gap: 16px 24px; }
.long summary { cursor: pointer; color: var(--muted); }
.long > .name { display: block; max-height: 240px; overflow: auto; }
.reasons { display: grid; gap: 12px; align-content: start; overflow-wrap: anywhere; }
.reason { overflow-wrap: anywhere; white-space: pre-wrap; font: 12px/1.5 var(--mono); }
.doubt { font-style: italic; }
.leap { padding: 0 5px; font: 600 12px/16px var(--mono); }

.ladder { max-width: 760px; }
.ladder ol { list-style: none; }
.heads { display: flex; justify-content: space-between; gap: 16px; padding: 0 12px; font: 600 12px/1.5 var(--mono); }
.heads span { overflow-wrap: anywhere; }
.heads span:last-child { text-align: right; }
.step {
  display: grid;
  grid-template-columns: 26px minmax(0, 1fr) 26px;
  content-visibility: auto;
  contain-intrinsic-height: auto 54px;
}
.between { border-inline: 2px solid var(--strong); }
.message {
  display: block;
  width: 100%;
  padding: 5px 0 4px;
  border: 0;
  border-radius: 0;
  background: none;
  text-align: left;
}
.message:hover { background: var(--panel); }
.message > *:not(.arrow), .still > * { padding-inline: 10px; }
.first { display: flex; flex-wrap: wrap; gap: 0 10px; align-items: baseline; }
.number { min-width: 20px; color: var(--muted); text-align: right; }
.more { color: var(--muted); font-family: var(--mono); font-size: 12px; overflow-wrap: anywhere; }
.part { display: block; margin-left: 30px; overflow-wrap: anywhere; font-family: var(--mono); font-size: 12px; }
.part .mark { margin-left: 3px; }
.part u { font-weight: 600; text-underline-offset: 3px; }
.place { display: block; margin-left: 30px; color: var(--muted); font-size: 11px; }
.place .name { font: inherit; }
.arrow { display: block; width: 100%; stroke: var(--ink); stroke-width: 1.3; fill: var(--ink); }
.arrow, .arrow svg { overflow: visible; }
.from-B .arrow { transform: scaleX(-1); }
.arrow.dotted line { stroke-dasharray: 2 5; }
.arrow .cross { fill: none; stroke-width: 2; }
.still { padding-block: 6px; border-block: 1px dashed var(--strong); }
.at-B .first { justify-content: end; }
.gap .still { padding-inline: 10px; border-block-style: dotted; color: var(--muted); }
.mark { font-size: 11px; line-height: 16px; }
.mark.shows { padding: 0 5px; border: 1px dotted var(--strong); }
.mark.fault { padding: 0 5px; border: 1px solid var(--fail); color: var(--fail); }
.mark.doubtful { padding: 0 5px; border: 1px dashed var(--inconc); color: var(--inconc); }
.mark.tag { color: var(--muted); font-style: italic; }
.step.fault .between { background: var(--fail-ground); }
.step.fault .arrow { stroke: var(--fail); stroke-width: 2.6; fill: var(--fail); }
.step.doubtful .between { background: var(--inconc-ground); }
.step.doubtful .arrow { stroke: var(--inconc); fill: var(--inconc); }
.detail { padding: 4px 10px 8px; background: var(--panel); }
.detail pre { padding: 4px 0; overflow-x: auto; }
.detail .dump { font-size: 11px; }
.show { overflow-wrap: anywhere; white-space: pre-wrap; }

.lane { position: relative; }
.lane::before { content: ""; position: absolute; top: 0; bottom: 0; border-left: 2px solid var(--fail); }
.lane::after { content: ""; position: absolute; top: 14px; width: 12px; border-top: 2px solid var(--fail); }
.left::before, .left::after { left: 12px; }
.right::before, .right::after { right: 12px; }
.lane.begins::before { top: 14px; }
.lane.ends::before { bottom: auto; height: 16px; }
.lane.begins.ends::before, .passed::after { display: none; }
.lane.fault::after { top: 9px; width: 0; border: 6px solid var(--fail); }
.lane.fault.left::after { left: 7px; }
.lane.fault.right::after { right: 7px; }
.lane.late::before, .lane.late::after { border-color: var(--strong); }
.lane.doubtful::before, .lane.doubtful::after { border-color: var(--inconc); }
.lane:not(.fault, .shows, .passed)::before, .lane:not(.fault, .shows, .passed)::after { display: none; }

.of-run { grid-template-rows: auto minmax(0, 1fr); }
.of-run main { grid-template-columns: minmax(0, 1fr); }
.of-run #filters, .of-run #lists { display: none; }

#printed { display: none; }

@media (min-width: 1350px) {
  .beside { grid-template-columns: minmax(0, 3fr) minmax(0, 2fr); }
}

@media (max-width: 820px) {
  body { display: block; height: auto; }
  main { display: block; }
  #lists { height: 45vh; border-right: 0; border-bottom: 2px solid var(--rule); }
  #kinds dl { max-height: none; }
  #filters label { flex: 1 1 100px; }
  #filters select, #filters input { width: 100%; }
  #sums th, #sums td { padding: 1px 5px; }
  #sums th[scope="row"] { padding-left: 0; }
  article { padding: 10px; }
  .step { grid-template-columns: 18px minmax(0, 1fr) 18px; }
  .left::before, .left::after { left: 8px; }
  .right::before, .right::after { right: 8px; }
  .lane::after { width: 9px; }
  .lane.fault::after { border-width: 5px; }
  .lane.fault.left::after { left: 4px; }
  .lane.fault.right::after { right: 4px; }
  .part, .place { margin-left: 0; }
  .number { min-width: 0; }
  .sentence { margin-left: 0; }
}

@media print {
  :root {
    color-scheme: light;
    --ground: #ffffff;
    --panel: #ffffff;
    --ink: #000000;
    --muted: #333333;
    --rule: #999999;
    --strong: #555555;
    --chosen: #ffffff;
    --fail: #000000;
    --fail-ground: #ffffff;
    --inconc-ground: #ffffff;
    --inconc: #000000;
    --error: #000000;
    --pass: #000000;
  }
  body { display: block; height: auto; }
  main { display: block; }
  #filters, #lists, #kinds, .prints-listed main, article > button { display: none; }
  .prints-listed #printed { display: block; }
  #shown { overflow: visible; }
  article, .beside, .reasons { display: block; }
  h2, h3, .heading, .summary, .doubt, .heads { break-after: avoid; }
  .lister { color: inherit; text-decoration: none; }
  article > *, .beside > *, .reasons > * { margin-bottom: 8px; }
  .step { content-visibility: visible; }
  .step, .reason, .heading, .summary { break-inside: avoid; }
  #printed article + article { border-top: 2px solid #000000; }
  .step.fault .between { border-block: 2px solid #000000; }
}
</style>
</head>
<body>
<header>
<h1>TCAP dialogues, judged</h1>
<div id="sums"><p>The report is being read.</p></div>
<details id="kinds"><summary>The kinds of fault, F1 to F15</summary></details>
<p id="version" class="small"></p>
<noscript><p>It is shown by a script, which is not run here.</p></noscript>
<div id="notes" role="status"></div>
</header>
<form id="filters" role="search" aria-label="What is listed">
<label>Verdict <select name="verdict"></select></label>
<label>End at fault <select name="end"></select></label>
<label>Kind <select name="kind"></select></label>
<label>Table <select name="table"></select></label>
<label>Trace <select name="trace"></select></label>
<label class="words">Search IDs, names, comments, lines, kinds, reasons <input type="search" name="words"
  placeholder="as 7f01, line 12, frame 812, F9 or unheard" autocomplete="off" spellcheck="false"></label>
<button type="button" id="clear">Clear</button>
<button type="button" id="print-listed" title="Prints the dialogues and the traces in error that are listed">Print listed</button>
</form>
<main>
<section id="lists" aria-label="What was judged">
<p id="listed" class="unseen" role="status"></p>
<div id="tabs" role="tablist" aria-label="Lists">
<button type="button" role="tab" id="tab-dialogues" aria-controls="panel-dialogues" aria-selected="true"></button>
<button type="button" role="tab" id="tab-traces" aria-controls="panel-traces" aria-selected="false" tabindex="-1"></button>
</div>
<div id="panel-dialogues" class="panel" role="tabpanel" aria-labelledby="tab-dialogues">
<div id="dialogues" class="list" role="listbox" tabindex="0" aria-label="Traces in error, and dialogues that do not pass"></div>
</div>
<div id="panel-traces" class="panel" role="tabpanel" aria-labelledby="tab-traces" hidden>
<div id="traces" class="list" role="listbox" tabindex="0" aria-label="Traces"></div>
</div>
</section>
<section id="shown" tabindex="-1" aria-label="What is chosen"></section>
</main>
<section id="printed"></section>
<script>
"use strict";
(() => {
// Texts and elements. The content of a trace is data: it is set as text, and never as markup.

// The kinds of fault: the words for each, and the section of its rule. docs/VERDICTS.md says how to find each by
// hand.
const KINDS = {
  F1: ["Its octets are no message.", "Q.773, X.690"],
  F2: ["Its peer sent nothing from the destination ID that it could answer.", "Q.774 3.3"],
  F3: ["Its end has used the originating ID before.", "Q.774 3.3; that an ID is used once is this profile's choice"],
  F4: ["Its end has ended this dialogue before.", "Q.774 3.3"],
  F5: ["It answers or rejects what its peer never sent.", "Q.774 3.2"],
  F6: ["It invokes or answers an operation as the table does not allow.", "Q.771 3.1, operation classes"],
  F7: ["Its dialogue portion is one that it may not carry.", "Q.774 3.2, dialogues; Q.773 4.2.3"],
  F8: ["Its end has no transaction over which it may send it.", "Q.774 3.3"],
  F9: ["Its dialogue portion does not fit how the dialogue stands.", "Q.774 3.2, dialogues"],
  F10: ["It invokes an ID that is in use.", "Q.774 3.2, invocations; Q.771, classes"],
  F11: ["It is linked to an invocation that its end did not receive, has answered, or may not link it to.",
    "Q.774 3.2; Q.771, linked operations"],
  F12: ["It answers an invocation that was answered already.", "Q.774 3.2; Q.771, classes"],
  F13: ["It rejects with a problem that nothing received has.", "Q.774 3.2; Q.773 4.2.2"],
  F14: ["It is an Abort of the provider that answers nothing which is left.", "Q.774 3.3, abnormal procedures"],
  F15: ["It is a quiet mark, and a transaction of the end is surely open there.", "the bench's word that all was quiet"],
};
const ENDS = ["A", "B"];
const VERDICTS = ["error", "fail", "inconc", "pass"];
const SVG = "http://www.w3.org/2000/svg";

// Control characters, direction marks, and other characters that are invisible or change their neighbours.
const UNSEEN = /[\p{Cc}\p{Cf}\p{Zl}\p{Zp}]/gu;
const LONG_NAME = 80;
const LONG_TITLE = 1000;

/** Returns a text with each invisible character replaced by its number, except the characters in `kept`. */
function seen(text, kept = "") {
  return text.replace(UNSEEN, (it) => (kept.includes(it) ? it : `\\u{${it.codePointAt(0).toString(16)}}`));
}

/** Returns a text, cut if it is too long. */
function cut(text, longest) {
  return text.length > longest ? `${text.slice(0, longest)}\u2026` : text;
}

/** Returns a count with its word, in the plural unless the count is 1. */
function counted(count, word) {
  return `${count.toLocaleString("en")} ${word}${count === 1 ? "" : "s"}`;
}

/** Returns the words of a kind of fault, with the section of its rule. */
function wordsOfKind(kind) {
  const [words, section] = KINDS[kind] ?? ["This page has no words for it.", kind];
  return `${words} (${section})`;
}

/** Returns the sentence that identifies the fault within its kind: the first line of its text. If that has only the
 * words of the kind, returns an empty text. */
function sentenceOf({kind, text}) {
  const [sentence] = text.trim().split("\n"), [words] = KINDS[kind] ?? [""];
  return words.toLowerCase().startsWith(sentence.toLowerCase()) ? "" : sentence;
}

/** Returns in words how often something occurs, if it is more than once. */
function often(count) {
  if (count < 2) return "";
  return count === 2 ? " (twice)" : ` (${count.toLocaleString("en")} times)`;
}

/** Returns the line of an entry at fault, and the frame or frames that its comment names first, if there are any. */
function placeOfFault({line, comment}) {
  const frames = /\bframes? \d{1,15}\b(?: to \d{1,15}\b)?/i.exec(comment ?? "");
  return [line > 0 ? `line ${line}` : "", frames?.[0] ?? ""].filter((it) => it !== "").join(", ");
}

/** Sets the attributes that are not null, and appends the children. */
function filled(made, attributes, children) {
  for (const [name, value] of Object.entries(attributes)) {
    if (value !== null) made.setAttribute(name, value);
  }
  made.append(...children.filter((it) => it !== null));
  return made;
}

/** Creates an HTML element. A child that is a string becomes text. */
function make(tag, attributes, ...children) {
  return filled(document.createElement(tag), attributes, children);
}

/** Creates an SVG element. */
function drawn(tag, attributes, ...children) {
  return filled(document.createElementNS(SVG, tag), attributes, children);
}

/** Returns a name from a trace without the folder that it begins with, cut if it is long; and a title with more of the
 * name, or null if nothing is left out. */
function shortened(text, longest, folder) {
  const all = seen(text), isWhole = folder === "" && all.length <= longest;
  return [cut(seen(text.slice(folder.length)), longest), isWhole ? null : cut(all, LONG_TITLE)];
}

/** Returns an element with a name from a trace, without the folder that it begins with; its title has more of it. */
function named(text, longest = LONG_NAME, folder = "") {
  const [words, title] = shortened(text, longest, folder);
  return make("bdi", {class: "name", title}, words);
}

/** Returns an element that opens to show a text from a trace, or null if the text is short. */
function opening(words, text) {
  const all = seen(text);
  if (all.length <= LONG_NAME) return null;
  return make("details", {class: "long"}, make("summary", {}, words), make("bdi", {class: "name"}, all));
}

/** Returns a verdict as a word in a frame. */
function badge(verdict) {
  return make("span", {class: `badge ${verdict}`}, verdict);
}

// The report: the lines of JSON in the page. A run is alone in its page.

// In a JSON text a quote in a string comes after a backslash, so these characters are always a key and the start of
// its list.
const MESSAGES = ',"messages":[';
// The words for dialogues that pass although an end did not hear everything or did not answer.
const UNHEARD = "unheard or unanswered";
// The names of ends of which a trace says nothing.
const NO_NAMES = {};

/** Returns the object in a line, or null if there is none. */
function objectOf(line) {
  try {
    const found = JSON.parse(line);
    return typeof found === "object" ? found : null;
  } catch {
    return null;
  }
}

/** Returns the object in a line without its messages, which are read when they are needed. */
function headOf(line) {
  const at = line.indexOf(MESSAGES);
  return objectOf(at < 0 ? line : `${line.slice(0, at)}}`);
}

/** Returns whether an item is a trace; otherwise it is a dialogue. */
function isTrace(item) {
  return item.line === undefined;
}

/** Returns whether a trace is itself in error, and not only one of its dialogues. */
function isInError({head}) {
  return head.verdict === "error" && head.text !== undefined;
}

/** Returns the ends at fault of a dialogue, in the order of their entries at fault. */
function blamedEnds(head) {
  return ENDS.filter((end) => head[end]?.kind !== undefined).sort((one, other) => head[one].entry - head[other].entry);
}

/** Returns the trace of the next object. The object of a trace comes after those of its dialogues. */
function openTrace(report, name) {
  const last = report.traces.at(-1);
  if (last !== undefined && last.head.verdict === null) return last;
  report.traces.push({head: {trace: name, verdict: null}, number: report.traces.length});
  return report.traces.at(-1);
}

/** Adds the object in a line to the report. */
function addLine(report, line) {
  const head = headOf(line);
  if (head === null) {
    report.unread += 1;
  } else if (head.run !== undefined) {
    report.run = head.run;
  } else if (head.total !== undefined) {
    report.total = head;
  } else if (head.dialogue === undefined) {
    openTrace(report, head.trace).head = head;
  } else {
    const trace = openTrace(report, head.trace).number;
    report.dialogues.push({head, line, number: report.dialogues.length, trace, blamed: blamedEnds(head), words: null});
  }
}

/** A reader of a report that is still arriving. */
class Reader {
  constructor() {
    this.report = {dialogues: [], traces: [], total: null, run: null, unread: 0, isRead: false};
    this.from = 0;
  }

  /** Adds the lines that have arrived whole. */
  take(text) {
    for (let to = text.indexOf("\n", this.from); to >= 0; to = text.indexOf("\n", this.from)) {
      this.add(text.slice(this.from, to));
      this.from = to + 1;
    }
  }

  /** Adds the rest after everything has arrived. */
  close(text) {
    this.take(text);
    this.add(text.slice(this.from));
    this.report.isRead = true;
  }

  /** Adds a line, unless it is empty. */
  add(line) {
    if (line !== "") addLine(this.report, line);
  }
}

/** Returns the messages of a dialogue and the count of those left out, or null if they can't be read. */
function messagesOf(dialogue) {
  const whole = objectOf(dialogue.line);
  return whole && {messages: whole.messages ?? [], leftOut: whole.left_out ?? 0};
}

/** Returns the texts of the reasons of a dialogue. */
function reasonsIn(head) {
  const ends = ENDS.map((end) => head[end]).filter((it) => it !== undefined);
  return [head.text ?? "", ...ends.flatMap(({text, doubt}) => [text ?? "", doubt ?? ""])];
}

/** Returns the searched texts of a dialogue: its IDs and its lines, and in lower case its kinds of fault, the names
 * of its trace, its table and its operations, the comments, and the reasons. */
function wordsOf(dialogue) {
  if (dialogue.words === null) {
    const {head, blamed} = dialogue, messages = messagesOf(dialogue)?.messages ?? [];
    const parts = messages.flatMap((it) => it.components ?? []);
    const names = new Set(parts.flatMap((it) => it.split(" ")).filter((it) => !/^-?\d*$/.test(it)));
    const lower = (texts) => texts.join("\n").toLowerCase();
    dialogue.words = {ids: ENDS.flatMap((end) => head.ids[end]), lines: head.lines,
      kinds: blamed.map((end) => head[end].kind.toLowerCase()), names: lower([head.trace, head.table ?? "", ...names]),
      comments: lower(messages.map((it) => it.comment ?? "")), reasons: lower(reasonsIn(head))};
  }
  return dialogue.words;
}

/** Returns a count of 0 for each verdict. */
function noCounts() {
  return Object.fromEntries(VERDICTS.map((it) => [it, 0]));
}

/** Returns what the directives of a trace say of its ends, of a trace or of a dialogue of it. The object of the trace
 * has it, which comes after those of its dialogues. */
function endNamesOf(item, report) {
  const {head} = isTrace(item) ? item : report.traces[item.trace];
  return head.names ?? NO_NAMES;
}

/** Returns the folder that all traces of a report are in, with a slash at its end, or an empty text. */
function folderOf({traces}) {
  const paths = traces.map(({head}) => head.trace.split("/"));
  let shared = (paths[0] ?? []).slice(0, -1);
  for (const path of paths) {
    const end = shared.findIndex((it, at) => at >= path.length - 1 || path[at] !== it);
    if (end >= 0) shared = shared.slice(0, end);
  }
  return shared.map((it) => `${it}/`).join("");
}

/** Returns the first dialogue that fails, or null if none does. */
function firstFailing({dialogues}) {
  return dialogues.find(({head}) => head.verdict === "fail") ?? null;
}

/** Returns the counts at the end of the report, or else those of the traces that have arrived. */
function sumsOf(report) {
  if (report.total !== null) return report.total.total;
  const sums = {traces: noCounts(), dialogues: noCounts(), messages: 0, unheard: 0};
  for (const {head} of report.traces.filter((it) => it.head.verdict !== null)) {
    sums.traces[head.verdict] += 1;
    sums.messages += head.messages;
    sums.unheard += head.unheard;
    for (const verdict of VERDICTS) sums.dialogues[verdict] += head.dialogues[verdict];
  }
  return sums;
}

// A list that keeps only the rows in view in the page.

// The height of a row in pixels; frame.css has the same.
const ROW = 62;
// The number of rows that are drawn above and below those in view.
const BESIDE = 8;

/** A listbox. `show.row` returns the content of a row. `show.chosen` is called when an item is chosen, `show.clicked`
 * when it is clicked, and `show.entered` on Enter. */
class RowList {
  constructor(box, show) {
    Object.assign(this, {box, show, items: [], at: -1});
    this.rows = make("div", {class: "rows", role: "presentation"});
    box.append(this.rows);
    box.addEventListener("scroll", () => this.draw());
    box.addEventListener("keydown", (event) => this.pressed(event));
    box.addEventListener("click", (event) => this.clicked(event));
    new ResizeObserver(() => this.draw()).observe(box);
  }

  /** Lists items. The item at this place is chosen, or none if the place is -1. */
  list(items, at) {
    const isMoved = at !== this.at;
    Object.assign(this, {items, at});
    this.rows.style.height = `${items.length * ROW}px`;
    if (isMoved) this.reveal();
    else this.draw();
  }

  /** Draws the rows in view. */
  draw() {
    const first = Math.max(0, Math.floor(this.box.scrollTop / ROW) - BESIDE);
    const last = Math.min(this.items.length, Math.ceil((this.box.scrollTop + this.box.clientHeight) / ROW) + BESIDE);
    const rows = [];
    for (let at = first; at < last; at += 1) rows.push(this.rowAt(at));
    this.rows.replaceChildren(...rows);
    if (this.at < 0) this.box.removeAttribute("aria-activedescendant");
    else this.box.setAttribute("aria-activedescendant", `${this.box.id}-${this.at}`);
  }

  /** Returns the row at a place. */
  rowAt(at) {
    const row = make("div", {
      id: `${this.box.id}-${at}`, class: "row", role: "option", "data-at": at,
      "aria-selected": at === this.at, "aria-setsize": this.items.length, "aria-posinset": at + 1,
    }, ...this.show.row(this.items[at]));
    row.style.top = `${at * ROW}px`;
    return row;
  }

  /** Chooses the item at a place. */
  choose(at) {
    this.at = at;
    this.reveal();
    this.show.chosen(this.items[at]);
  }

  /** Scrolls the chosen row into view, or the first row if none is chosen. */
  reveal() {
    const {box} = this, at = Math.max(0, this.at);
    if (at * ROW < box.scrollTop) box.scrollTop = at * ROW;
    else if ((at + 1) * ROW > box.scrollTop + box.clientHeight) box.scrollTop = (at + 1) * ROW - box.clientHeight;
    this.draw();
  }

  /** Chooses the row that was clicked. */
  clicked(event) {
    const row = event.target.closest(".row");
    if (row === null) return;
    this.choose(Number(row.dataset.at));
    this.show.clicked();
  }

  /** Chooses a row by a key. */
  pressed(event) {
    const {at} = this, last = this.items.length - 1;
    if (last < 0 || event.ctrlKey || event.altKey || event.metaKey) return;
    const page = Math.max(1, Math.floor(this.box.clientHeight / ROW) - 1);
    const places = {ArrowDown: at + 1, ArrowUp: at - 1, PageDown: at + page, PageUp: at - page, Home: 0, End: last};
    if (event.key in places) this.choose(Math.min(last, Math.max(0, places[event.key])));
    else if (event.key === "Enter" && at >= 0) this.show.entered(this.items[at]);
    else return;
    event.preventDefault();
  }
}

// The filters and the search, which decide what is listed.

// The most traces in the filter of traces; others can be chosen in the list of traces.
const MOST_OPTIONS = 1000;

/** Returns how often each value occurs in a list. */
function tally(values) {
  const counts = new Map();
  for (const value of values) counts.set(value, (counts.get(value) ?? 0) + 1);
  return counts;
}

/** Fills a choice with `any` and an option for each value with its words and, if there is one, its title; null makes a
 * disabled option. Keeps the choice made. */
function fillChoice(choice, options) {
  const {value} = choice;
  const made = options.map(([it, words, title]) =>
    make("option", {value: it, disabled: it === null ? "" : null, title: title ?? null}, words));
  choice.replaceChildren(make("option", {value: ""}, "any"), ...made);
  choice.value = value;
}

/** Returns the options for kinds of fault, each with its count and its sentence. */
function kindOptions(dialogues) {
  const counts = tally(dialogues.flatMap(({head, blamed}) => [...new Set(blamed.map((end) => head[end].kind))]));
  const known = Object.keys(KINDS).filter((kind) => counts.has(kind));
  return known.map((kind) => [kind, `${kind} (${counts.get(kind)}): ${KINDS[kind][0]}`]);
}

/** Returns the options for tables. A sign comes before the name in each value, since a name may be empty. */
function tableOptions(dialogues) {
  const counts = [...tally(dialogues.map(({head}) => head.table))];
  const options = counts.map(([name, count]) =>
    name === undefined ? ["-", `without a name (${count})`] : [`=${name}`, `${cut(seen(name), LONG_NAME)} (${count})`]);
  return options.sort((one, other) => (one[1] < other[1] ? -1 : 1));
}

/** Returns the options for the first traces with dialogues in the report, and an option that counts the others. The
 * names of the traces begin with `folder`. */
function traceOptions(report, folder) {
  const counts = [...tally(report.dialogues.map((it) => it.trace))], others = counts.length - MOST_OPTIONS;
  const options = counts.slice(0, MOST_OPTIONS).map(([number, count]) => {
    const [words, title] = shortened(report.traces[number].head.trace, LONG_NAME, folder);
    return [String(number), `${words} (${count})`, title];
  });
  return others > 0 ? [...options, [null, `${others.toLocaleString("en")} more in the list of traces`]] : options;
}

/** Chooses a trace, whose name begins with `folder`, and adds an option for it if there is none. */
function chooseTrace(form, {number, head}, folder) {
  const choice = form.elements.trace, value = String(number);
  if ([...choice.options].every((it) => it.value !== value)) {
    const [words, title] = shortened(head.trace, LONG_NAME, folder);
    choice.append(make("option", {value, title}, words));
  }
  choice.value = value;
}

/** Fills the filters with the values in the report. The names of its traces begin with `folder`. */
function fillFilters(form, report, folder) {
  const {dialogues} = report;
  const verdicts = tally([...report.traces.filter(isInError), ...dialogues].map(({head}) => head.verdict));
  const ends = tally(dialogues.flatMap((it) => it.blamed));
  const {verdict, end, kind, table, trace} = form.elements;
  const words = (it) => (it === "pass" ? "pass (traces alone)" : `${it} (${verdicts.get(it) ?? 0})`);
  fillChoice(verdict, VERDICTS.map((it) => [it, words(it)]));
  fillChoice(end, ENDS.map((it) => [it, `${it} (${ends.get(it) ?? 0})`]));
  fillChoice(kind, kindOptions(dialogues));
  fillChoice(table, tableOptions(dialogues));
  fillChoice(trace, traceOptions(report, folder));
}

/** Returns a term of the search. `part` is looked for in IDs, names and kinds; `line` is a line number, or null;
 * `told` tests the comments; `isWord` is whether reasons are searched too. In comments a number must not be part of a
 * longer one, since most of those are times. In reasons a number can mean anything, so they are not searched for
 * numbers. */
function termOf(part) {
  const [, name, digits] = /^(?:(line|frame)\s+)?([1-9]\d*)$/.exec(part) ?? [];
  if (digits === undefined) return {part, line: null, told: (comments) => comments.includes(part), isWord: !/^\d*$/.test(part)};
  const number = new RegExp(`(?<![\\w.:-])${name === "frame" ? "frames? (?:\\d+ to )?" : ""}${digits}(?![\\w:-]|\\.\\d)`);
  const told = (comments) => name !== "line" && number.test(comments);
  return {part, line: name === "frame" ? null : Number(digits), told, isWord: false};
}

/** Returns the values of the filters and the terms of the search. */
function askedOf(form) {
  const {verdict, end, kind, table, trace, words} = Object.fromEntries(new FormData(form));
  const terms = words.toLowerCase().match(/(?:line|frame)\s+\d+(?!\S)|\S+/g) ?? [];
  return {verdict, end, kind, table, trace, terms: terms.map(termOf)};
}

/** Returns whether an end at fault of a dialogue and its kind are among those that the filters ask for. */
function isBlamedSo({head, blamed}, {end, kind}) {
  if (end === "" && kind === "") return true;
  return blamed.some((it) => (end === "" || it === end) && (kind === "" || head[it].kind === kind));
}

/** Returns whether the searched texts have a term. */
function hasTerm({ids, lines, kinds, names, comments, reasons}, {part, line, told, isWord}) {
  return names.includes(part) || ids.some((id) => id.includes(part)) || lines.includes(line) || told(comments)
    || kinds.includes(part) || (isWord && reasons.includes(part));
}

/** Returns whether a dialogue has each term. */
function hasTerms(dialogue, terms) {
  return terms.length === 0 || terms.every((it) => hasTerm(wordsOf(dialogue), it));
}

/** Returns whether a dialogue is listed. */
function isListed(dialogue, asked) {
  const {head, trace} = dialogue;
  return (asked.verdict === "" || head.verdict === asked.verdict) && (asked.trace === "" || String(trace) === asked.trace)
    && (asked.table === "" || asked.table === (head.table === undefined ? "-" : `=${head.table}`))
    && isBlamedSo(dialogue, asked) && hasTerms(dialogue, asked.terms);
}

/** Returns whether a trace is listed for itself: the filters must not ask for anything that only a dialogue has. */
function isTraceListed({head, number}, asked) {
  const reasons = [head.text ?? "", head.hint ?? "", head.unheard > 0 ? UNHEARD : ""].join("\n").toLowerCase();
  const words = {ids: [], lines: [head.line], kinds: [], names: head.trace.toLowerCase(), comments: "", reasons};
  return asked.end + asked.kind + asked.table === "" && (asked.trace === "" || String(number) === asked.trace)
    && (asked.verdict === "" || head.verdict === asked.verdict) && asked.terms.every((it) => hasTerm(words, it));
}

/** Returns the listed `dialogues`; `inError`, the traces that are themselves in error, which are listed before them;
 * `rows`, both of these; and `traces`, the list of traces, which are listed for themselves or for their dialogues. */
function listed(report, asked) {
  const dialogues = report.dialogues.filter((it) => isListed(it, asked));
  const having = new Set(dialogues.map((it) => it.trace)), alone = report.traces.filter((it) => isTraceListed(it, asked));
  const inError = alone.filter(isInError), of = new Set(alone.map((it) => it.number));
  const traces = report.traces.filter(({number}) => of.has(number) || having.has(number));
  return {dialogues, inError, rows: [...inError, ...dialogues], traces};
}

// The ladder: two lifelines, with a step for each message, from the top down.
//
// A step has these fields: `number`, its place in the ladder; `label`, the number that is shown; `entry`, the entry
// that buttons lead to, or null; `from`, the end that sends it, or null; `at`, if `from` is null, the end where it
// happens, if there is one; the texts `title`, `ids`, `more` and `place`; `parts`, texts on separate lines; `tags`,
// elements after its title; `isMarked`, its mark, if it has one: `fault` or `doubtful`; `arrow`; `way`, the words for
// the arrow, if they are not the usual ones; and `detail`, a function that makes what a click opens.
//
// A join is a line next to the ladder: `end` is the side where it is drawn, `by` the set of numbers that it ties, and
// `spans` the first and the last number of each of its pieces. A join for a fault ties the step at fault, which is
// open from the start, to the steps that show the fault. It has `kind`; `isDoubtful`; `at`, the number of the step at
// fault; and `part`, the index of its part at fault, or null. It spans everything that it ties.

// The most parts of a step that are drawn.
const MOST_PARTS = 12;
// An arrow from left to right: where it begins and ends, in percent of the width, and its tip, which may be a cross.
const WHOLE = {from: 0, to: 100, tip: "head"};
const TIPS = {head: "M0 6 L-11 1.5 V10.5 Z", cross: "M-5 1 L5 11 M-5 11 L5 1"};

/** Returns an arrow; frame.css turns the arrows of B. */
function arrowView({from, to, tip, isDotted}) {
  const end = drawn("svg", {x: `${to}%`, y: "0", overflow: "visible"}, drawn("path", {class: tip, d: TIPS[tip]}));
  return drawn("svg", {class: isDotted ? "arrow dotted" : "arrow", height: "12", "aria-hidden": "true"},
    drawn("line", {x1: `${from}%`, y1: "6", x2: `${to}%`, y2: "6"}), end);
}

/** Returns the role of a step in a join: at fault, shown as evidence, passed by its line, or none. */
function partIn(join, number) {
  if (!join.spans.some(([first, last]) => first <= number && number <= last)) return "";
  if (number === join.at) return "fault";
  return join.by.has(number) ? "shows" : "passed";
}

/** Returns a piece of a join's line next to a step. */
function lane(join, number, side) {
  const classes = ["lane", side];
  const part = join === undefined ? "" : partIn(join, number);
  if (part !== "") {
    classes.push(part);
    if (!join.spans.some(([first, last]) => first < number && number <= last)) classes.push("begins");
    if (!join.spans.some(([first, last]) => first <= number && number < last)) classes.push("ends");
    if (join.kind === undefined) classes.push("late");
    if (join.isDoubtful === true) classes.push("doubtful");
  }
  return make("span", {class: classes.join(" "), "aria-hidden": "true"});
}

/** Returns whether all joins that have a step at fault are in doubt. */
function isInDoubt(joins, number) {
  const found = joins.filter((it) => it.at === number);
  return found.length > 0 && found.every((it) => it.isDoubtful === true);
}

/** Returns the mark of what a join has at fault, between two texts. If the join is inconclusive, the mark says "in
 * doubt". */
function faultMark(join, before, behind) {
  const [kind, words] = join.isDoubtful ? ["doubtful", "in doubt"] : ["fault", "at fault"];
  return make("strong", {class: `mark ${kind}`}, `${before}${words}${behind}`);
}

/** Returns the marks that the joins give to a step. */
function marks(joins, number) {
  const found = [];
  for (const join of joins.filter((it) => it.kind !== undefined)) {
    if (join.at === number) found.push(faultMark(join, `${join.end} `, `: ${join.kind}`));
    if (join.by.has(number)) found.push(make("span", {class: "mark shows"}, `shows ${join.kind} of ${join.end}`));
  }
  return found;
}

/** Returns a part of a step. `join` is the join that has it at fault, if there is one. */
function partView(part, join) {
  const words = cut(seen(part), 2 * LONG_NAME);
  if (join === undefined) return make("span", {class: "part"}, words);
  return make("span", {class: "part"}, make("u", {}, words), " ", faultMark(join, "", ""));
}

/** Returns the first parts of a step and the one at fault, and the count of the others. */
function partsOf({parts, number}, joins) {
  const views = parts.flatMap((it, at) => {
    const join = joins.find((one) => one.at === number && one.part === at);
    return at < MOST_PARTS || join !== undefined ? [partView(it, join)] : [];
  });
  const others = parts.length - views.length;
  return others > 0 ? [...views, make("span", {class: "part"}, `and ${counted(others, "other")}`)] : views;
}

/** Returns the lines of a step: its number with its title and marks, and its parts. */
function sayings(step, joins) {
  const number = make("span", {class: "number"}, step.label);
  const first = make("span", {class: "first"}, number, make("b", {}, step.title), make("code", {}, step.ids),
    make("span", {class: "more"}, step.more), ...marks(joins, step.number), ...step.tags);
  return [first, ...partsOf(step, joins)];
}

/** Returns the place of a step in its trace. */
function placed(step) {
  return make("span", {class: "place"}, named(step.place, 2 * LONG_NAME));
}

/** Opens or closes the detail of a step. */
function toggle(button, step) {
  const opens = button.getAttribute("aria-expanded") !== "true";
  button.setAttribute("aria-expanded", String(opens));
  if (opens) button.after(make("div", {class: "detail"}, ...step.detail()));
  else button.nextElementSibling.remove();
}

/** Returns a step between the lifelines: a message with its arrow, or a text for a step that no end sends. */
function between(step, joins) {
  const inner = sayings(step, joins);
  if (step.from === null) {
    return make("div", {class: `between still at-${step.at ?? "none"}`, tabindex: "-1"}, ...inner, placed(step));
  }
  const way = make("span", {class: "unseen"}, step.way ?? (step.from === "A" ? " from A to B " : " from B to A "));
  const button = make("button", {type: "button", class: "message", "aria-expanded": "false"}, ...inner, way,
    arrowView(step.arrow), placed(step));
  button.addEventListener("click", () => toggle(button, step));
  const made = make("div", {class: `between from-${step.from}`}, button);
  if (joins.some((it) => it.at === step.number)) toggle(button, step);
  return made;
}

/** Returns a row, with a piece of a join's line on each side. */
function row(attributes, number, joins, inner) {
  const [left, right] = ["A", "B"].map((end) => joins.find((it) => it.end === end));
  return make("li", attributes, lane(left, number, "left"), inner, lane(right, number, "right"));
}

/** Returns the row of a step. */
function rung(step, joins) {
  const isFault = step.isMarked !== undefined || joins.some((it) => it.at === step.number);
  const isDoubtful = isInDoubt(joins, step.number) || step.isMarked === "doubtful";
  const classes = ["step", isFault ? "fault" : "", isDoubtful ? "doubtful" : ""].filter((it) => it !== "").join(" ");
  return row({class: classes, "data-entry": step.entry}, step.number, joins, between(step, joins));
}

/** Returns a row for entries that are not listed. */
function gap(from, to, joins) {
  const which = to === from ? `Entry ${from} is` : `Entries ${from} to ${to} are`;
  return row({class: "step gap"}, to, joins, make("div", {class: "between still"}, `${which} not listed.`));
}

/** Returns a join with the numbers that its line spans: those given, or else from the first listed step that it ties
 * to the last. */
function spanned(join, steps) {
  if (join.spans !== undefined) return join;
  const tied = steps.map((it) => it.number).filter((it) => it === join.at || join.by.has(it));
  return {...join, spans: tied.length > 0 ? [[tied[0], tied.at(-1)]] : []};
}

/** Returns the ladder with this name. `count` is the number of all steps, and `heads` has what is above each
 * lifeline. */
function ladder(name, heads, steps, given, count) {
  const joins = given.map((it) => spanned(it, steps));
  const rows = [];
  let next = 0;
  for (const step of steps) {
    if (step.number > next) rows.push(gap(next, step.number - 1, joins));
    rows.push(rung(step, joins));
    next = step.number + 1;
  }
  if (next < count) rows.push(gap(next, count - 1, joins));
  const top = make("div", {class: "heads", "aria-hidden": "true"}, ...heads.map((it) => make("span", {}, ...it)));
  return make("div", {class: "ladder"}, top, make("ol", {"aria-label": name}, ...rows));
}

// The components of a message, in few words: from the report, and for the rest from their lines in `show`.

// The components of which one answers the other: an Invoke has an invoke ID and its operation, an answer only the ID.
const INVOKE = /^Invoke (-?\d+) (.*)$/s;
const ANSWER = /^(?:ReturnResultLast|ReturnResultNotLast|ReturnError) (-?\d+)$/;
// The line of a reason that gives the operation which a Return Result names.
const NAMED = /^ *the result names (.*)$/m;
// The fields after the invoke ID in the line of a component.
const FIELD = / (linked|op|error|general|invoke|result)=(?:g:)?(\S*)/g;
// The problems of a Reject in the order of their numbers (Q.773 4.2.2), by the field that has the number.
const PROBLEMS = {
  general: ["general problem", ["unrecognizedComponent", "mistypedComponent", "badlyStructuredComponent"]],
  invoke: ["invoke problem", ["duplicateInvokeID", "unrecognizedOperation", "mistypedParameter", "resourceLimitation",
    "initiatingRelease", "unrecognizedLinkedID", "linkedResponseUnexpected", "unexpectedLinkedOperation"]],
  result: ["return result problem", ["unrecognizedInvokeID", "returnResultUnexpected", "mistypedParameter"]],
  error: ["return error problem", ["unrecognizedInvokeID", "returnErrorUnexpected", "unrecognizedError", "unexpectedError",
    "mistypedParameter"]],
};

/** Returns the fields of the components of a message, from the lines of `show` after the first. */
function fieldsOf(show) {
  return show.split("\n").slice(1).map((line) => {
    const [head] = line.split(" parameter=");
    return Object.fromEntries([...head.matchAll(FIELD)].map(([, name, value]) => [name, value]));
  });
}

/** Returns the code of an operation, which comes after its name if it has one. */
function codeOf(operation) {
  return operation.split(" ").at(-1);
}

/** Returns operations with their names, by their codes: those that messages invoke, and those that results name, as
 * reasons report. */
function operationsIn(messages, reasons = []) {
  const invoked = messages.flatMap((it) => it.components ?? []).map((it) => INVOKE.exec(it)?.[2]);
  const named = reasons.map((it) => NAMED.exec(it)?.[1]);
  return new Map([...invoked, ...named].filter((it) => it !== undefined).map((it) => [codeOf(it), it]));
}

/** Returns the problem of a Reject in words. */
function problemIn(fields) {
  const [name] = Object.keys(PROBLEMS).filter((it) => it in fields);
  if (name === undefined) return "";
  const [words, problems] = PROBLEMS[name], problem = problems[Number(fields[name])];
  return ` with ${words} ${fields[name]}${problem === undefined ? "" : `, ${problem}`}`;
}

/** Returns the operation that a Return Result names, in words, if it is not the operation that the result answers. */
function namedIn({op}, answered, operations) {
  if (op === undefined || (answered !== null && codeOf(answered) === op)) return "";
  return `${answered === null ? "" : ", but"} names ${operations.get(op) ?? op}`;
}

/** Returns a component in words. `fields` are those of its line, and `answered` is the operation that it answers, or
 * null. */
function partWords(part, fields, answered, operations) {
  const [kind] = part.split(" "), answers = answered === null ? "" : ` answers ${answered}`;
  if (kind === "Invoke") return fields.linked === undefined ? part : `${part} linked to ${fields.linked}`;
  if (kind === "Reject") return part + problemIn(fields);
  if (kind === "ReturnError") return part + answers + (fields.error === undefined ? "" : ` with error ${fields.error}`);
  return part + answers + namedIn(fields, answered, operations);
}

/** Returns the components of a message in words. */
function partsIn({components, answered, show}, operations) {
  const fields = fieldsOf(show ?? "");
  return (components ?? []).map((it, at) => partWords(it, fields[at] ?? {}, answered?.[at] ?? null, operations));
}

/** Returns the operation that a component answers, or null if that is uncertain. */
function answeredBy(part, {end, dtid}, invokes) {
  const found = invokes.get(`${otherEnd(end)} ${ANSWER.exec(part)?.[1]}`) ?? null;
  return found !== null && found.otid === dtid ? found.operation : null;
}

/** Adds to each message the operations that its components answer. An operation is certain if the other end sent
 * exactly one Invoke with its ID before, from the transaction ID that the answer goes to, and no earlier entry is
 * left out or unreadable. */
function withOperations(messages) {
  const invokes = new Map();
  let isSure = true;
  return messages.map((message, at) => {
    const {entry, end, otid, fault, components} = message;
    isSure &&= entry === at && fault === undefined;
    if (!isSure || components === undefined) return message;
    const answered = components.map((it) => answeredBy(it, message, invokes));
    for (const [, id, operation] of components.map((it) => INVOKE.exec(it)).filter((it) => it !== null)) {
      const key = `${end} ${id}`;
      invokes.set(key, invokes.has(key) ? null : {otid, operation});
    }
    return {...message, answered};
  });
}

// Views of one dialogue and of one trace.

const OCTETS_IN_ROW = 16;
const KEPT = "\n";

/** Returns a dump of octets, 16 in a row: their offset, their digits and their ASCII characters. */
function dumpOf(digits) {
  const octets = digits.match(/../g) ?? [];
  const rows = [];
  for (let at = 0; at < octets.length; at += OCTETS_IN_ROW) {
    const row = octets.slice(at, at + OCTETS_IN_ROW);
    const letters = row.map((it) => parseInt(it, 16)).map((it) => (it > 31 && it < 127 ? String.fromCharCode(it) : "."));
    const halves = [row.slice(0, 8).join(" "), row.slice(8).join(" ")].join("  ");
    rows.push(`${at.toString(16).padStart(4, "0")}  ${halves.padEnd(3 * OCTETS_IN_ROW)}  ${letters.join("")}`);
  }
  return rows.join("\n");
}

/** Returns what a click on a message opens: the text of `show`, and the octets if the report has them. */
function detailOf(message) {
  const {show, octets, comment} = message;
  const dump = octets === undefined ? [] : [
    make("p", {class: "small"}, counted(octets.length / 2, "octet")),
    make("pre", {class: "dump", tabindex: "0", "aria-label": "Octets"}, dumpOf(octets)),
  ];
  return [make("pre", {class: "show"}, seen(show.trimEnd(), KEPT)), ...dump, opening("The whole comment", comment ?? "")];
}

/** Returns the transaction IDs of a message as a text. */
function idsIn({otid, dtid}) {
  return [otid === undefined ? "" : `otid ${otid}`, dtid === undefined ? "" : `dtid ${dtid}`].join(" ").trim();
}

/** Returns the rest of a message's line in `show` after its IDs: a cause and the dialogue portion. */
function portionIn(show) {
  return /^\d+ [AB] \w+(?: [od]tid=\w*)*(.*)/.exec(show)?.[1].trim() ?? "";
}

/** Returns the line number of an entry, if its trace has lines, and the comment above the line. */
function placeOf(message) {
  return [message.line > 0 ? `line ${message.line}` : "", message.comment ?? ""].filter((it) => it !== "").join(": ");
}

/** Returns the step of an entry. `operations` has the names of the dialogue's operations by their codes. */
function stepOf(message, operations) {
  const {entry} = message;
  const step = {number: entry, label: String(entry), entry, from: message.end ?? null, ids: idsIn(message), more: "", tags: [],
    parts: partsIn(message, operations), place: placeOf(message), arrow: WHOLE, detail: () => detailOf(message)};
  if (message.mark === true) return {...step, title: "Quiet mark"};
  if (message.kind === undefined) return {...step, title: "No message", more: seen(message.fault)};
  return {...step, title: message.kind, more: portionIn(message.show)};
}

/** Returns a join for each end at fault, which ties the entry at fault to the entries that show the fault. */
function joinsOf({head, blamed}) {
  return blamed.map((end) => {
    const {entry, kind, evidence, doubt} = head[end];
    const by = new Set((evidence?.shows ?? []).flatMap((it) => it.entries));
    by.delete(entry);
    return {end, at: entry, by, kind, part: evidence?.component ?? null, isDoubtful: doubt !== undefined};
  });
}

/** Returns a button that leads to an entry in the ladder. */
function leap(entry) {
  return make("button", {type: "button", class: "leap", "data-to": entry}, String(entry));
}

/** Returns a line of a reason. If the line is a fact of the evidence, its entries are buttons, each with its count. */
function reasonLine(line, shows) {
  const found = shows.find((it) => it.entries.length > 0 && line.trimStart().startsWith(`${it.what}:`));
  if (found === undefined) return make("div", {class: "line"}, seen(line));
  const counts = [...tally(found.entries)], first = counts.slice(0, 100), others = counts.length - first.length;
  const entries = first.flatMap(([entry, count]) => [" ", leap(entry), often(count)]);
  const behind = others > 0 ? ` and ${counted(others, "other")}` : "";
  const margin = line.slice(0, line.search(/\S|$/));
  return make("div", {class: "line"}, `${margin}${seen(found.what)}:`, ...entries, behind);
}

/** Returns the text of a reason, without the blanks that begin all its lines. */
function reasonOf(text, evidence) {
  const lines = text.trimEnd().split("\n");
  const margin = lines.map((it) => it.search(/\S|$/)).reduce((one, other) => Math.min(one, other));
  return make("div", {class: "reason"}, ...lines.map((it) => reasonLine(it.slice(margin), evidence?.shows ?? [])));
}

/** Returns the sentence that identifies the fault within its kind, or null if there is none. */
function sentenceView(said) {
  const sentence = sentenceOf(said);
  return sentence === "" ? null : make("span", {class: "sentence"}, cut(seen(sentence), LONG_TITLE));
}

/** Returns the verdict on an end in one line. `before` is the entry at fault of the other end, if it has one. */
function summaryOf(end, said, before) {
  if (said.kind !== undefined) {
    const place = placeOfFault(said), later = before < said.entry ? " It comes later and may follow from the first." : "";
    const words = `${place === "" ? "" : `, ${place}`}, ${said.kind}. ${wordsOfKind(said.kind)}${later}`;
    return make("p", {class: "summary"}, badge(said.verdict), ` ${end}: at entry `, leap(said.entry), words,
      sentenceView(said));
  }
  const words = said.verdict === "pass"
    ? `sent ${counted(said.sent, "message")}, with ${counted(said.unheard, "message")} of its peer taken as unheard.`
    : cut(seen(said.text.split("\n")[0]), LONG_TITLE);
  return make("p", {class: "summary"}, badge(said.verdict), ` ${end}: ${words}`);
}

/** Returns whether there is more to show for an end than its summary. */
function hasReason(said) {
  return said?.kind !== undefined || (said?.text ?? "").trimEnd().includes("\n");
}

/** Returns the full reasons for the verdicts on the ends and on the dialogue. */
function reasonsOf(head, ends) {
  const boxes = ends.filter((end) => hasReason(head[end])).map((end) => {
    const {text, evidence, doubt} = head[end];
    const doubted = doubt === undefined ? null : make("p", {class: "doubt"}, `Inconclusive: ${seen(doubt)}.`);
    return make("div", {}, make("h3", {}, `Why, of ${end}`), doubted, reasonOf(text, evidence));
  });
  if (head.text !== undefined) {
    const heading = head.verdict === "error" ? "Why" : "What it waits for";
    boxes.push(make("div", {}, make("h3", {}, heading), reasonOf(head.text, null)));
  }
  return make("div", {class: "reasons"}, ...boxes);
}

/** Returns a fact with its name. */
function fact(name, ...words) {
  return make("div", {}, make("dt", {}, name), make("dd", {}, ...words));
}

/** Returns the IDs of an end as a fact. */
function idsFact(end, ids) {
  const words = ids.join(" ");
  return fact(`IDs of ${end}`, make("code", {}, cut(words, LONG_NAME) || "none"), opening("All of them", words) ?? "");
}

/** Returns the facts of a dialogue. */
function factsOf(head) {
  const {entries, lines, ids, table, context} = head;
  const open = head.marked ? "open at the quiet mark after it" : "open at the end of its trace";
  const told = [["open", open], ["marked", "ended by a quiet mark"],
    ["again", "with an ID of an earlier dialogue"]].filter(([flag]) => head[flag]).map(([, words]) => words);
  const [word, span] = lines[0] > 0 ? ["lines", lines] : ["entries", entries];
  const words = `${entries.length.toLocaleString("en")}: ${word} ${span[0]} to ${span.at(-1)} of the trace`;
  return make("dl", {class: "facts"},
    ...ENDS.map((end) => idsFact(end, ids[end])),
    table === undefined ? null : fact("Table", named(table)),
    context === undefined ? null : fact("Context", make("code", {}, context)),
    fact("Entries", words), told.length > 0 ? fact("State", told.join("; ")) : null);
}

/** Returns what is above the lifeline of an end: its letter, its name if it has one, and its IDs. */
function lifelineHead(end, name, ids) {
  return [`${end} `, name === undefined ? null : named(name), ` ${cut(ids.join(" "), LONG_NAME)}`];
}

/** Returns the ladder of a dialogue, with a note if entries are not listed. `names` has the names of its ends. */
function ladderOf(dialogue, names) {
  const found = messagesOf(dialogue);
  if (found === null) return make("p", {class: "note"}, "The messages of this dialogue can't be read: its line is cut.");
  const joins = joinsOf(dialogue), {ids} = dialogue.head;
  const heads = ENDS.map((end) => lifelineHead(end, names[end], ids[end]));
  const operations = operationsIn(found.messages, reasonsIn(dialogue.head));
  const steps = withOperations(found.messages).map((it) => stepOf(it, operations));
  const count = dialogue.head.entries.length;
  const [left, all] = [found.leftOut, count].map((it) => it.toLocaleString("en"));
  const note = found.leftOut > 0 ? make("p", {class: "note"}, `${left} of the ${all} entries are not listed.`) : null;
  return make("div", {}, note, ladder("The entries of the dialogue", heads, steps, joins, count));
}

/** Returns a line for each end that has a name. A long name can be opened. */
function endNamesView(names) {
  return ENDS.filter((end) => names[end] !== undefined).flatMap((end) => [
    make("p", {class: "end"}, make("b", {}, end), " is ", named(names[end])),
    opening(`The whole name of ${end}`, names[end]),
  ]);
}

/** Returns a heading with the name of a trace, which can be opened if it is long, and the names of its ends. */
function headingOf(trace, words, verdict, names) {
  const heading = make("h2", {tabindex: "-1"}, named(trace), words, verdict === null ? null : badge(verdict));
  return make("div", {class: "heading"}, heading, opening("The whole name", trace), ...endNamesView(names));
}

/** Returns the view of a dialogue, whose ends have these names. The end at fault comes first; if both are, the one with
 * the earlier entry at fault. */
function dialogueView(dialogue, names) {
  const {head, blamed} = dialogue;
  const ends = [...blamed, ...ENDS.filter((end) => head[end] !== undefined && !blamed.includes(end))];
  const made = make("article", {class: "dialogue", "aria-label": `Dialogue ${head.dialogue}`},
    headingOf(head.trace, ` dialogue ${head.dialogue} `, head.verdict, names), factsOf(head),
    ...ends.map((end) => summaryOf(end, head[end], head[otherEnd(end)]?.entry)),
    make("div", {class: "beside"}, ladderOf(dialogue, names), reasonsOf(head, ends)));
  const there = new Set([...made.querySelectorAll(".step[data-entry]")].map((it) => it.dataset.entry));
  for (const it of made.querySelectorAll(".leap")) it.disabled = !there.has(it.dataset.to);
  return made;
}

/** Returns the counts of a trace. */
function traceSums(head) {
  if (head.verdict === null) {
    return make("p", {class: "note"}, "The run was stopped before this trace was judged to its end.");
  }
  return make("dl", {class: "facts"}, fact("Messages", head.messages.toLocaleString("en")),
    ...VERDICTS.map((it) => fact(`Dialogues: ${it}`, head.dialogues[it].toLocaleString("en"))),
    fact("Pass unheard or unanswered", head.unheard.toLocaleString("en")));
}

/** Returns what happened to the messages of a trace that is itself in error. */
function unjudgedWords({dialogues, messages}) {
  if (VERDICTS.some((it) => dialogues[it] > 0)) return "Dialogues that were open there may not be told.";
  if (messages === 0) return "";
  return messages === 1 ? "Its message was not judged." : `None of its ${messages.toLocaleString("en")} messages was judged.`;
}

/** Returns the view of a trace. `enter` lists its dialogues, and `note` is a further note on it. */
function traceView(trace, count, enter, note) {
  const {head} = trace, words = isInError(trace) ? unjudgedWords(head) : "";
  const notes = [note, words].filter((it) => it !== "").map((it) => make("p", {class: "note"}, it));
  const hint = head.hint === undefined ? "" : `\nhint: ${head.hint}`;
  const text = head.text === undefined ? null : make("div", {class: "reason"}, seen(`${head.text}${hint}`, KEPT));
  const button = make("button", {type: "button"}, `List its dialogues that do not pass (${count.toLocaleString("en")})`);
  button.addEventListener("click", enter);
  return make("article", {class: "trace"},
    headingOf(head.trace, " ", head.verdict, head.names ?? NO_NAMES), ...notes, text, traceSums(head),
    count > 0 ? button : null);
}

// The rows of the lists.

// The number of IDs of an end in a row.
const SOME_IDS = 4;

/** Returns the fault of an end for the row of a dialogue: its place, and the sentence on it, or else the words of its
 * kind. */
function faultInRow(end, said, isAlone) {
  const place = [isAlone ? "" : end, placeOfFault(said)].filter((it) => it !== "").join(" ");
  const kind = wordsOfKind(said.kind), words = cut(seen(sentenceOf(said)), LONG_TITLE) || kind;
  return make("span", {title: words === kind ? kind : `${kind} ${words}`}, place === "" ? words : `${place}: ${words}`);
}

/** Returns in one line why a dialogue without an end at fault was not judged or not decided. */
function undecidedInRow(head) {
  const text = [head.text, ...ENDS.map((end) => head[end]?.text)].find((it) => it !== undefined) ?? "";
  return make("span", {class: "lower"}, make("span", {}, cut(seen(text.trim().split("\n")[0]), LONG_TITLE)));
}

/** Returns the row of a dialogue. The name of its trace begins with `folder`, which is left out. */
function dialogueRow({head, blamed}, folder) {
  const ids = ENDS.map((end) => `${end} ${head.ids[end].slice(0, SOME_IDS).join(" ") || "-"}`).join("  ");
  const kinds = blamed.map((end) => make("b", {title: wordsOfKind(head[end].kind)}, `${end} ${head[end].kind}`));
  const faults = blamed.map((end) => faultInRow(end, head[end], blamed.length === 1));
  const number = make("span", {}, `dialogue ${head.dialogue}`);
  return [
    make("span", {class: "upper"}, badge(head.verdict), ...kinds, named(head.trace, LONG_NAME, folder), number),
    faults.length > 0 ? make("span", {class: "lower faults"}, ...faults) : undecidedInRow(head),
    make("span", {class: "lower"}, make("code", {}, ids), head.table === undefined ? null : named(head.table)),
  ];
}

/** Returns how many dialogues of a trace have each verdict, and how many pass unheard or unanswered. */
function countsIn({dialogues, unheard}) {
  const counts = VERDICTS.filter((it) => dialogues[it] > 0).map((it) => `${dialogues[it].toLocaleString("en")} ${it}`);
  return unheard > 0 ? [...counts, `${unheard.toLocaleString("en")} pass ${UNHEARD}`] : counts;
}

/** Returns the row of a trace. Its name begins with `folder`, which is left out. */
function traceRow({head}, folder) {
  const {trace, verdict, text} = head;
  const counts = verdict === null ? ["not judged to its end"] : countsIn(head);
  return [
    make("span", {class: "upper"}, verdict === null ? null : badge(verdict), named(trace, LONG_NAME, folder)),
    make("span", {class: "lower"}, counts.length > 0 ? make("span", {}, counts.join(", ")) : null, text === undefined ? null : named(text)),
  ];
}

/** Returns the row of a dialogue, or of a trace among the dialogues. */
function rowOf(item, folder) {
  return isTrace(item) ? traceRow(item, folder) : dialogueRow(item, folder);
}

// Links: the dialogue or trace that a fragment of the address leads to, and the fragment that leads to each.

/** Returns the trace and the number that a fragment names, with null for each that it does not name. */
function namesIn(fragment) {
  const asked = new URLSearchParams(fragment.slice(1));
  return [asked.get("trace"), asked.get("dialogue")];
}

/** Returns the dialogue that a fragment leads to, by its number in the page, or by its trace and its number there. */
function dialogueAt(fragment, report) {
  if (/^#\d+$/.test(fragment)) return report.dialogues[Number(fragment.slice(1))];
  const [trace, number] = namesIn(fragment);
  return report.dialogues.find(({head}) => head.trace === trace && String(head.dialogue) === number);
}

/** Returns the trace that a fragment leads to, by its number in the page or by its name. */
function traceAt(fragment, report) {
  if (/^#t\d+$/.test(fragment)) return report.traces[Number(fragment.slice(2))];
  const [trace] = namesIn(fragment);
  return report.traces.find(({head}) => head.trace === trace);
}

/** Returns the fragment that leads to a dialogue. */
function fragmentOf(dialogue, report) {
  const {trace, dialogue: number} = dialogue.head;
  const fragment = `#${new URLSearchParams({trace, dialogue: number})}`;
  const isLong = trace.length > LONG_TITLE;
  return !isLong && dialogueAt(fragment, report) === dialogue ? fragment : `#${dialogue.number}`;
}

/** Returns the fragment that leads to a trace. */
function fragmentOfTrace(trace, report) {
  const fragment = `#${new URLSearchParams({trace: trace.head.trace})}`;
  const isLong = trace.head.trace.length > LONG_TITLE;
  return !isLong && traceAt(fragment, report) === trace ? fragment : `#t${trace.number}`;
}

/** Returns why the page has no dialogue with this number of a trace. */
function missingIn({head}, number, report) {
  const name = `Dialogue ${cut(seen(number), LONG_NAME)} of this trace`;
  if (head.verdict === null) return `${name} is not in this page, which ends before this trace does.`;
  const count = VERDICTS.reduce((sum, it) => sum + head.dialogues[it], 0);
  if (!/^\d+$/.test(number) || Number(number) >= count) {
    return `${name} was not judged: ${counted(count, "dialogue")} of it ${count === 1 ? "was" : "were"}.`;
  }
  const shown = report.dialogues.length.toLocaleString("en");
  const left = (report.total?.left_out ?? 0) > 0 ? `, and of the others the first ${shown} are here` : "";
  return `${name} is not in this page: those that pass are only counted${left}.`;
}

/** Returns the text for a fragment whose target is not in the page, or an empty text if it names no target. */
function missingAt(fragment) {
  const [trace] = namesIn(fragment);
  if (/^#t?\d+$/.test(fragment)) return `No ${fragment.startsWith("#t") ? "trace" : "dialogue"} of this page has the number in this link.`;
  return trace === null ? "" : `The trace ${cut(seen(trace), LONG_NAME)} is not in this page.`;
}

// The view of a run (Q.774 3.2 and 3.3): one way in which the entries of a record can have come about. Its steps are
// rows of the ladder. A message that is received directly after it is sent has one row. A message that is received
// later has a row where it leaves and one where it arrives, and a line on the side of its receiver joins the two.

const LEAVES = {from: 0, to: 50, tip: "head"};
const COMES = {from: 50, to: 100, tip: "head"};
// The class of the badge of each verdict.
const BADGES = {LAWFUL: "pass", REFUTED: "fail", UNDECIDED: "inconc", "NOT SHOWN": "inconc"};

/** Returns the other end. */
function otherEnd(end) {
  return end === "A" ? "B" : "A";
}

/** Returns a tag with words on what a message does or what happens to it. */
function tag(words) {
  return make("span", {class: "mark tag"}, words);
}

/** The rows of a run, made step by step. */
class RunRows {
  constructor({entries, of}) {
    Object.assign(this, {of, rows: [], sent: new Map(), spans: {A: [], B: []}});
    this.messages = new Map(entries.map((it) => [it.entry, it]));
    this.operations = operationsIn(entries);
  }

  /** Adds a row, and returns it. */
  add(row) {
    this.rows.push({label: "", entry: null, from: null, ids: "", more: "", parts: [], place: "", tags: [], ...row,
      number: this.rows.length});
    return this.rows.at(-1);
  }

  /** Adds a row of words, and returns it. */
  say(title, end) {
    return this.add({title, at: end});
  }

  /** Adds the row of an entry, with an arrow and tags, and returns it. */
  send(number, arrow, ...words) {
    const row = this.add({...stepOf(this.messages.get(number), this.operations), arrow, tags: words.map(tag)});
    this.sent.set(number, row);
    return row;
  }

  /** Adds the row of an entry that an end sends. If this end is judged alone, its message is not followed further. */
  sends({end, entry}, ...words) {
    const row = this.send(entry, end === this.of ? WHOLE : LEAVES, ...words);
    row.isOnItsWay = end !== this.of;
  }

  /** Adds the arrival of a message: in the row of its sending if that is the last row, else in a new row. */
  come(end, number, tip, ...words) {
    const sent = this.sent.get(number), tags = words.map(tag);
    if (sent !== undefined) sent.isOnItsWay = false;
    if (sent !== undefined && this.rows.at(-1) === sent) {
      sent.arrow = {...WHOLE, tip};
      sent.tags.push(...tags);
      return;
    }
    const shown = sent ?? {title: "Message", ids: "", detail: () => [make("p", {}, "Its entry is left out.")]};
    const {title, ids, detail} = shown;
    const row = this.add({title, ids, detail, label: String(number), from: otherEnd(end), arrow: {...COMES, tip},
      way: ` comes to ${end} `, tags: [tag(`comes to ${end}`), ...tags]});
    if (sent === undefined) return;
    sent.tags.push(tag("comes later"));
    this.spans[end].push([sent.number, row.number]);
  }

  /** Adds a step of the run. */
  step(it) {
    const {step, end, entry} = it;
    if (step === "sends" || step === "tells") this.sends(it);
    else if (step === "receives") this.come(end, entry, "head");
    else if (step === "discards") this.come(end, entry, "cross", `${end} can't receive it: ${it.reason}`);
    else if (step === "loses") this.lose(end, entry);
    else if (step === "expires") this.say(`${end}: invocation ${it.invoke} of ${it.half} ends unseen`, end);
    else if (step === "closes") this.say(`${end}: ${it.half} closes unseen`, end);
    else if (step === "replies") this.reply(it);
    else if (step === "stands") this.stand(entry);
    else this.send(entry, null);
  }

  /** Marks a message as lost. */
  lose(end, number) {
    const sent = this.sent.get(number);
    if (sent === undefined || end === this.of) return;
    sent.isOnItsWay = false;
    sent.arrow = {...LEAVES, tip: "cross"};
    sent.tags.push(tag(this.of === undefined ? "taken as lost" : `taken as lost before ${this.of}`));
  }

  /** Adds the row of a provider's answer, after the arrival of the message that it answers. */
  reply(it) {
    this.come(it.end, it.answers, "head");
    this.sends(it, `${it.end}'s provider answers ${it.answers}`);
  }

  /** Adds the row of an entry after the last step. */
  stand(number) {
    if (!this.isStopped) this.say("The steps end here. The entries below stand as they are recorded.");
    this.isStopped = true;
    this.send(number, {...LEAVES, isDotted: true});
  }

  /** Tags the messages that are in transit at the end of the run. */
  end() {
    for (const row of this.rows.filter((it) => it.isOnItsWay)) row.tags.push(tag("on its way at the end"));
  }

  /** Marks the entry where the verdict falls, with words. */
  mark(number, kind, words) {
    const row = this.sent.get(number) ?? this.say("Behind the last entry");
    row.isMarked = kind;
    row.tags.unshift(make("strong", {class: `mark ${kind}`}, words));
  }

  /** Returns the lines next to the ladder, for the messages that arrive late. */
  lines() {
    const ends = ENDS.filter((end) => this.spans[end].length > 0);
    return ends.map((end) => ({end, spans: this.spans[end], by: new Set(this.spans[end].flat())}));
  }
}

/** Adds a row that counts the steps left out, if there are any. */
function sayLeftOut(made, count, where) {
  if (count > 0) made.say(`${counted(count, "step")} ${where} ${count === 1 ? "is" : "are"} left out.`);
}

/** Returns the word of a run's verdict, and the rest of its line. */
function verdictOf(title) {
  const word = Object.keys(BADGES).find((it) => title.startsWith(it)) ?? "";
  return [word, title.slice(word.length)];
}

/** Returns the first line of the reason for the verdict. */
function whyOf(text) {
  return seen(text.trim().split("\n")[0].replace(/^why: /, ""));
}

/** Returns the rows of a run. */
function rowsOf(run) {
  const made = new RunRows(run), [before, behind] = run.left_out;
  sayLeftOut(made, before, "above");
  for (const it of run.steps) made.step(it);
  sayLeftOut(made, behind, "below");
  if (behind === 0) made.end();
  if (run.marked !== undefined) {
    const [word] = verdictOf(run.title);
    made.mark(run.marked, BADGES[word] === "fail" ? "fault" : "doubtful", `${word}: ${whyOf(run.text)}`);
  }
  return made;
}

/** Returns the words above the lifeline of an end. */
function headOfEnd(end, of) {
  return end === of ? `${end}, judged alone` : end;
}

/** Returns the view of a run. */
function runView(run) {
  const {title, of, count, text} = run, made = rowsOf(run), [word, more] = verdictOf(title);
  const heads = ENDS.map((end) => [headOfEnd(end, of)]);
  const words = of === undefined ? null
    : fact("Judged", `${of} alone: nothing is asked of what ${otherEnd(of)} sends, nor of what it hears`);
  const why = text === undefined ? null : make("div", {class: "reasons"}, make("h3", {}, "Why"), reasonOf(text, null));
  return make("article", {class: "run"},
    make("h2", {tabindex: "-1"}, make("span", {class: `badge ${BADGES[word]}`}, word), more),
    make("dl", {class: "facts"}, fact("Entries", count.toLocaleString("en")), words),
    make("div", {class: "beside"}, ladder("The steps of the run", heads, made.rows, made.lines(), made.rows.length), why));
}

// The page: connects the report, the filters, the lists and the views.

// The most items that are printed at once.
const PRINTED = 500;
// The time in milliseconds between two looks at how much of the report has arrived.
const PAUSE = 20;
// The time in milliseconds after which the address names the item that is shown.
const STAY = 300;
// The parts of a step that can have the focus.
const WORKED = ":is(button, .still)";
// The widths at which the lists are above the view; frame.css has the same.
const NARROW = "(max-width: 820px)";

/** Returns the element with this ID. */
function byId(id) {
  return document.getElementById(id);
}

/** Returns a text, as a button if there is something to list. */
function lister(words, title, list) {
  if (list === null) return words;
  const button = make("button", {type: "button", class: "lister", title, "aria-label": `${words}. ${title}`}, words);
  button.addEventListener("click", list);
  return button;
}

/** Returns the table of counts. If a list has the items that a count is of, a click on the count lists them. */
function sumsView(sums, list) {
  const head = make("tr", {}, ...["", ...VERDICTS.map(badge), "all"].map((it) => make("th", {scope: "col"}, it)));
  const rows = ["traces", "dialogues"].map((what) => {
    const counts = VERDICTS.map((it) => sums[what][it]), all = counts.reduce((one, other) => one + other, 0);
    const isListed = (it) => sums[what][it] > 0 && (what === "traces" || it !== "pass");
    const cells = VERDICTS.map((it) => lister(sums[what][it].toLocaleString("en"), `Lists the ${what} whose verdict is ${it}`,
      isListed(it) ? () => list(what, "verdict", it) : null));
    return make("tr", {}, ...[make("th", {scope: "row"}, what)], ...[...cells, all.toLocaleString("en")].map((it) => make("td", {}, it)));
  });
  const unheard = lister(`${sums.unheard.toLocaleString("en")} pass ${UNHEARD}`, "Lists the traces that have such dialogues",
    sums.unheard > 0 ? () => list("traces", "words", "unheard") : null);
  return [make("table", {}, head, ...rows), make("p", {class: "small"}, `${counted(sums.messages, "message")}; `, unheard)];
}

/** Returns notes on a report that is incomplete. */
function notesOn({dialogues, total, unread, isRead}) {
  const notes = [], count = dialogues.length.toLocaleString("en");
  if (!isRead) return [make("p", {class: "note"}, `The report is being read: ${count} dialogues so far.`)];
  if (total === null) {
    notes.push("This report is not whole: the run was stopped before its end. "
      + "The sums are of the traces that were judged to their ends.");
  }
  if (unread > 0) notes.push(`${counted(unread, "line")} of the report can't be read.`);
  if (total?.left_out > 0) {
    const left = total.left_out.toLocaleString("en");
    notes.push(`${left} of the dialogues that do not pass are not in this page, which has the first ${count}.`);
  }
  return notes.map((it) => make("p", {class: "note"}, it));
}

/** Returns the words on the program that judged, or an empty text if the report does not have its version. */
function versionWords({total}) {
  return total?.version === undefined ? "" : `Judged by tcapjudge ${seen(total.version)}`;
}

/** Returns the kinds of fault, each with its words. */
function kindsView() {
  const rows = Object.keys(KINDS).map((kind) => make("div", {}, make("dt", {}, kind), make("dd", {}, wordsOfKind(kind))));
  return make("dl", {}, ...rows);
}

/** The page of a report. */
class Page {
  constructor(report) {
    this.report = report;
    this.form = byId("filters");
    this.shown = byId("shown");
    this.lists = {
      dialogues: new RowList(byId("dialogues"),
        {row: (it) => rowOf(it, this.folder), chosen: (it) => this.choose(it), clicked: () => this.uncover(),
          entered: () => this.enter()}),
      traces: new RowList(byId("traces"),
        {row: (it) => traceRow(it, this.folder), chosen: (it) => this.choose(it), clicked: () => this.uncover(),
          entered: (it) => this.listTrace(it)}),
    };
    this.listed = {dialogues: [], inError: [], rows: [], traces: []};
    this.folder = "";
    this.fragment = window.location.hash;
    byId("kinds").append(kindsView());
    this.hear();
  }

  /** Shows the report as far as it has arrived, and follows the address once its target has arrived. */
  renew() {
    if (this.report.run !== null) {
      this.showRun(this.report.run);
      return;
    }
    this.folder = folderOf(this.report);
    fillFilters(this.form, this.report, this.folder);
    const list = (...what) => this.listBy(...what);
    if (this.report.isRead) byId("sums").replaceChildren(...sumsView(sumsOf(this.report), list));
    byId("notes").replaceChildren(...notesOn(this.report));
    byId("version").textContent = versionWords(this.report);
    if (!this.isUsed) this.chosen = firstFailing(this.report);
    this.refresh();
    if (this.follow(this.fragment)) this.fragment = "";
  }

  /** Connects each control with its action. */
  hear() {
    for (const name of ["click", "keydown", "input"]) document.addEventListener(name, () => (this.isUsed = true), {capture: true});
    for (const name of ["input", "change"]) this.form.addEventListener(name, () => this.ask());
    this.form.addEventListener("submit", (event) => this.submit(event));
    byId("clear").addEventListener("click", () => this.clear());
    byId("print-listed").addEventListener("click", () => this.printListed());
    for (const name of Object.keys(this.lists)) byId(`tab-${name}`).addEventListener("click", () => this.turnTo(name));
    byId("tabs").addEventListener("keydown", (event) => this.turnBy(event));
    this.shown.addEventListener("click", (event) => this.leap(event.target));
    this.shown.addEventListener("keydown", (event) => this.leave(event));
    byId("lists").addEventListener("keydown", (event) => this.leaveList(event));
    window.addEventListener("hashchange", () => this.follow(window.location.hash));
    window.addEventListener("afterprint", () => this.unprint());
  }

  /** Returns the values of the filters as a text. */
  formText() {
    return String(new URLSearchParams(new FormData(this.form)));
  }

  /** Lists again if the filters have changed. After `input` a click on a row also causes `change`, and a list that is
   * drawn again would not notice the click. */
  ask() {
    if (this.formText() !== this.asked) this.refresh();
  }

  /** On Enter in the search, moves the focus to the list. */
  submit(event) {
    event.preventDefault();
    this.ask();
    this.list().box.focus();
  }

  /** Lists the items that the filters ask for. Chooses the item that was chosen before, or else the first. */
  refresh() {
    const now = listed(this.report, askedOf(this.form));
    this.listed = now;
    this.asked = this.formText();
    const at = Math.max(0, now.rows.indexOf(this.chosen));
    this.lists.dialogues.list(now.rows, Math.min(at, now.rows.length - 1));
    this.lists.traces.list(now.traces, -1);
    this.tellCounts(now);
    if (now.rows.length === 0) this.showNone();
    else this.choose(now.rows[at]);
  }

  /** Shows how many items are listed. */
  tellCounts(now) {
    const inError = now.inError.length > 0 ? `, ${counted(now.inError.length, "trace")} in error` : "";
    const said = Object.keys(this.lists).map((name) => {
      const [count, all] = [now[name].length, this.report[name].length].map((it) => it.toLocaleString("en"));
      const words = name === "traces" ? `Traces ${count} of ${all}` : `Dialogues ${count} of ${all}${inError}`;
      return byId(`tab-${name}`).textContent = words;
    });
    byId("listed").textContent = `${said.join(". ")}.`;
  }

  /** Lists the items that one filter or word leaves, in the list of dialogues or of traces. */
  listBy(name, filter, value) {
    this.form.reset();
    this.form.elements[filter].value = value;
    this.refresh();
    this.turnTo(name);
    this.list().box.focus();
  }

  /** Shows a chosen dialogue or trace. Names it in the address after a while, since browsers limit how often the
   * address may change. */
  choose(item) {
    const {report} = this;
    if (this.listed.rows.includes(item)) this.chosen = item;
    this.view(item, () => this.viewOf(item, ""), endNamesOf(item, report));
    this.name(isTrace(item) ? fragmentOfTrace(item, report) : fragmentOf(item, report));
  }

  /** Writes a fragment into the address after a while. */
  name(fragment) {
    clearTimeout(this.timer);
    this.timer = setTimeout(() => window.history.replaceState(null, "", fragment), STAY);
  }

  /** Returns the view of a dialogue or a trace; `note` is a further note on a trace. */
  viewOf(item, note) {
    if (!isTrace(item)) return dialogueView(item, endNamesOf(item, this.report));
    const count = this.report.dialogues.filter((it) => it.trace === item.number).length;
    return traceView(item, count, () => this.listTrace(item), note);
  }

  /** Shows a run, without lists. */
  showRun(run) {
    document.body.classList.add("of-run");
    document.title = run.title;
    document.querySelector("h1").textContent = "A run, step by step";
    byId("sums").replaceChildren();
    this.view(run, () => runView(run));
  }

  /** Shows that no dialogue is listed, and offers the listed traces if there are any. */
  showNone() {
    const count = this.listed.traces.length, isAsked = [...new FormData(this.form).values()].some((it) => it !== "");
    const words = isAsked || this.report.dialogues.length > 0 ? "No dialogue is listed: the filters leave none."
      : "No dialogue is listed. Those that pass are only counted.";
    const which = count === 1 ? "the trace" : `the ${count.toLocaleString("en")} traces`;
    const button = make("button", {type: "button"}, `Show ${which} that the filters leave`);
    button.addEventListener("click", () => this.turnToTraces());
    this.chosen = null;
    this.view(null, () => make("p", {class: "empty"}, words, ...(isAsked && count > 0 ? [" ", button] : [])));
  }

  /** Turns to the list of traces, and chooses the first. */
  turnToTraces() {
    this.turnTo("traces");
    this.lists.traces.choose(0);
    this.list().box.focus();
  }

  /** Shows the view that `made` returns for an item, unless that item is shown already with these names of its ends. */
  view(item, made, names = NO_NAMES) {
    if (item !== null && item === this.viewed && names === this.viewedNames) return;
    Object.assign(this, {viewed: item, viewedNames: names});
    this.shown.replaceChildren(made());
    this.shown.scrollTop = 0;
  }

  /** Moves the focus from the list to the view: to the message at fault, or else to the heading. */
  enter() {
    (this.shown.querySelector(`.step.fault ${WORKED}`) ?? this.shown.querySelector("h2"))?.focus();
  }

  /** Moves the focus to the view if the view is below the list. */
  uncover() {
    if (window.matchMedia(NARROW).matches) this.enter();
  }

  /** On Escape, moves the focus from the list to the search. */
  leaveList(event) {
    if (event.key === "Escape") this.form.elements.words.focus();
  }

  /** On Escape, closes the message with the focus, or else moves the focus to the list. */
  leave(event) {
    if (event.key !== "Escape") return;
    const open = event.target.closest(".step")?.querySelector("button[aria-expanded=true]") ?? null;
    if (open === null) this.list().box.focus();
    else open.click();
    open?.focus();
  }

  /** Returns the list in view. */
  list() {
    return byId("panel-traces").hidden ? this.lists.dialogues : this.lists.traces;
  }

  /** Moves the focus to the entry that a button names. */
  leap(button) {
    if (!button.matches(".leap")) return;
    const step = button.closest("article").querySelector(`[data-entry="${button.dataset.to}"]`);
    step.scrollIntoView({block: "center"});
    step.querySelector(WORKED).focus();
  }

  /** Turns to a list. */
  turnTo(name) {
    for (const it of Object.keys(this.lists)) {
      byId(`panel-${it}`).hidden = it !== name;
      byId(`tab-${it}`).setAttribute("aria-selected", it === name);
      byId(`tab-${it}`).tabIndex = it === name ? 0 : -1;
    }
    this.lists[name].reveal();
  }

  /** Turns to the other list on an arrow key. */
  turnBy(event) {
    if (event.key !== "ArrowLeft" && event.key !== "ArrowRight") return;
    const name = byId("panel-traces").hidden ? "traces" : "dialogues";
    this.turnTo(name);
    byId(`tab-${name}`).focus();
  }

  /** Lists the dialogues of a trace that do not pass. If there are none, moves the focus to the view of the trace. */
  listTrace(trace) {
    if (!this.report.dialogues.some((it) => it.trace === trace.number)) {
      this.enter();
      return;
    }
    this.form.reset();
    chooseTrace(this.form, trace, this.folder);
    this.refresh();
    this.turnTo("dialogues");
    this.list().box.focus();
  }

  /** Clears the filters, and so lists everything. */
  clear() {
    this.form.reset();
    this.refresh();
  }

  /** Follows a fragment, and returns whether its target is there. Until the report is read, a missing target may
   * still arrive. */
  follow(fragment) {
    const dialogue = dialogueAt(fragment, this.report), trace = traceAt(fragment, this.report);
    if (dialogue !== undefined) {
      this.goTo("dialogues", dialogue);
    } else if (this.report.isRead && trace !== undefined) {
      const [, number] = namesIn(fragment);
      this.goTo("traces", trace);
      if (number !== null) this.tellMissing(fragment, () => this.viewOf(trace, missingIn(trace, number, this.report)));
    } else {
      if (this.report.isRead) this.sayMissing(fragment);
      return false;
    }
    this.uncover();
    return true;
  }

  /** Chooses a dialogue or a trace in its list, and clears the filters if they leave it out. */
  goTo(name, item) {
    this.isUsed = true;
    const rows = () => (name === "traces" ? this.listed.traces : this.listed.rows);
    if (!rows().includes(item)) this.clear();
    this.turnTo(name);
    this.lists[name].choose(rows().indexOf(item));
  }

  /** Shows that the target of a fragment is not in the page, if the fragment names one. */
  sayMissing(fragment) {
    const words = missingAt(fragment);
    if (words === "") return;
    this.lists.dialogues.list(this.listed.rows, -1);
    this.tellMissing(fragment, () => make("p", {class: "note"}, words));
  }

  /** Shows a view for a fragment whose target is not in the page, and keeps the fragment in the address. */
  tellMissing(fragment, made) {
    this.view(null, made);
    this.name(fragment);
  }

  /** Prints the listed traces in error and dialogues, as far as PRINTED allows. */
  printListed() {
    const {rows} = this.listed;
    const note = rows.length > PRINTED
      ? make("p", {class: "note"}, `The first ${PRINTED} of ${rows.length.toLocaleString("en")} that are listed.`) : "";
    byId("printed").replaceChildren(note, ...rows.slice(0, PRINTED).map((it) => this.viewOf(it, "")));
    document.body.classList.add("prints-listed");
    window.print();
  }

  /** Removes the printed items from the page. */
  unprint() {
    document.body.classList.remove("prints-listed");
    byId("printed").replaceChildren();
  }
}

/** Shows the first part of the report as soon as it has arrived, and the whole report at the end. */
function begin() {
  const reader = new Reader(), page = new Page(reader.report);
  const textNow = () => byId("report")?.textContent ?? "";
  let timer = null;
  const look = () => {
    reader.take(textNow());
    if (reader.report.dialogues.length > 0) page.renew();
    else timer = setTimeout(look, PAUSE);
  };
  look();
  document.addEventListener("DOMContentLoaded", () => {
    clearTimeout(timer);
    reader.close(textNow());
    page.renew();
  });
}

begin();
})();
</script>
<script type="application/x-ndjson" id="report">
"##;

/// The frame of a page after its objects of JSON.
pub const FRAME_TAIL: &str = r#"</script>
</body>
</html>
"#;
