//! The frame of a page: what stands around the data and the run that is handed in. `page/make` wrote
//! this file from `page/page.html`, `page/page.css`, `page/page.js` and `page/map.js`.

ghost use Rattle.plan_page.specs.Frame.{head_text, middle_text, tail_text};
ghost use Rattle.std.specs.Prelude.{◌≡◌};

const HEAD: &str = r##"<!doctype html>
<html lang="en">
<head>
<meta charset="utf-8">
<meta name="viewport" content="width=device-width, initial-scale=1">
<meta http-equiv="Content-Security-Policy" content="default-src 'none'; script-src 'unsafe-inline'; style-src 'unsafe-inline'">
<title>A plan to step through</title>
<style>
:root {
  color-scheme: light dark;
  --paper: #ffffff;
  --ink: #1b1f24;
  --soft: #57606a;
  --line: #c4ccd4;
  --panel: #f5f7f9;
  --accent: #0a58ca;
  --lit: #d7e6ff;
  --good: #116329;
  --bad: #b3121f;
  --witness: #8a4b00;
}
@media (prefers-color-scheme: dark) {
  :root {
    --paper: #14181d;
    --ink: #e6eaee;
    --soft: #a3adb8;
    --line: #3d4650;
    --panel: #1c2229;
    --accent: #7ab7ff;
    --lit: #1f3a5f;
    --good: #6fdd8b;
    --bad: #ff8b86;
    --witness: #ffb454;
  }
}
* {
  box-sizing: border-box;
}
body {
  margin: 0 auto;
  max-width: 80rem;
  padding: 0.75rem;
  background: var(--paper);
  color: var(--ink);
  font: 1rem/1.45 system-ui, sans-serif;
}
h1 {
  margin: 0;
  font-size: 1.35rem;
}
h2 {
  margin: 0 0 0.4rem;
  font-size: 1.1rem;
}
h3 {
  margin: 0.6rem 0 0.1rem;
  font-size: 0.95rem;
  color: var(--soft);
}
p {
  margin: 0.35rem 0;
}
main {
  display: grid;
  grid-template-columns: repeat(auto-fit, minmax(min(100%, 22rem), 1fr));
  gap: 0.75rem;
}
section {
  min-width: 0;
  padding: 0.75rem;
  border: 1px solid var(--line);
  border-radius: 0.5rem;
  background: var(--panel);
}
#map {
  grid-column: 1 / -1;
  order: 1;
}
#search {
  order: 2;
  grid-column: 1 / -1;
}
#news {
  min-height: 1.45em;
  color: var(--soft);
}
code,
.name,
.rules li,
#record {
  font-family: ui-monospace, monospace;
  font-size: 0.92em;
  overflow-wrap: anywhere;
}
ul,
ol {
  margin: 0.2rem 0;
  padding-left: 1.4rem;
}
#fluents ul,
#gone ul,
#found,
#rules ul {
  list-style: none;
  padding-left: 0.3rem;
}
#sentence {
  white-space: pre-line;
}
#steps {
  padding-left: 2.6rem;
  max-height: 16rem;
  overflow: auto;
}
.added {
  color: var(--good);
  font-weight: 600;
}
.removed,
.bad {
  color: var(--bad);
  font-weight: 600;
}
.soft {
  color: var(--soft);
}
.rule {
  margin: 0.4rem 0;
  padding: 0.4rem 0.6rem;
  border-left: 3px solid var(--accent);
  background: var(--paper);
}
button,
input,
select {
  max-width: 100%;
  padding: 0.35rem 0.6rem;
  border: 1px solid var(--line);
  border-radius: 0.35rem;
  background: var(--paper);
  color: var(--ink);
  font: inherit;
}
button {
  cursor: pointer;
  text-align: left;
}
button:disabled {
  cursor: default;
  color: var(--soft);
}
button:focus-visible,
input:focus-visible,
select:focus-visible,
summary:focus-visible,
svg [tabindex]:focus-visible {
  outline: 3px solid var(--accent);
  outline-offset: 1px;
}
.outcome,
.plain {
  width: 100%;
  margin: 0.15rem 0;
}
.here {
  border-color: var(--accent);
  border-width: 2px;
}
.witness {
  border-left: 4px solid var(--witness);
}
.key {
  display: inline-block;
  min-width: 1.5em;
  margin-right: 0.4em;
  border: 1px solid var(--line);
  border-radius: 0.25rem;
  text-align: center;
}
.buttons {
  display: flex;
  flex-wrap: wrap;
  gap: 0.35rem;
}
#record,
#query {
  flex: 1 1 12rem;
  width: 100%;
  min-width: 0;
}
#drawing {
  display: block;
  width: 100%;
  height: 24rem;
  border: 1px solid var(--line);
  border-radius: 0.35rem;
  background: var(--paper);
  cursor: grab;
  touch-action: none;
}
#drawing text {
  fill: var(--ink);
  font-size: 13px;
  text-anchor: middle;
  pointer-events: none;
}
#drawing .node {
  cursor: pointer;
}
#drawing .shape {
  fill: var(--paper);
  stroke: var(--ink);
  stroke-width: 1.2;
}
#drawing .inner {
  fill: none;
  stroke: var(--ink);
}
#drawing .lit .shape {
  fill: var(--lit);
}
#drawing .current .shape {
  stroke: var(--accent);
  stroke-width: 4;
}
#drawing .stopped .shape {
  stroke: var(--bad);
  stroke-width: 2.5;
  stroke-dasharray: 5 3;
}
#drawing .stopped text {
  fill: var(--bad);
  font-weight: 700;
}
#drawing .edge {
  fill: none;
  stroke: var(--soft);
  stroke-width: 1.3;
}
#drawing .edge.onward {
  stroke: var(--accent);
  stroke-width: 2.2;
}
#drawing .edge.witness {
  stroke: var(--witness);
  stroke-width: 3.5;
  stroke-dasharray: 9 4;
}
marker path {
  fill: context-stroke;
}
#start {
  width: 7rem;
}
.legend,
.keys {
  color: var(--soft);
  font-size: 0.88rem;
}
.hidden {
  position: absolute;
  width: 1px;
  height: 1px;
  overflow: hidden;
  clip-path: inset(50%);
}
</style>
</head>
<body>
<header>
<h1>A plan to step through</h1>
<p id="counts"></p>
<details id="unused"><summary id="unused-count"></summary><ul id="unused-rules" class="rules"></ul></details>
</header>
<noscript><p>This page needs JavaScript. It loads nothing from elsewhere.</p></noscript>
<p id="news" role="status" aria-live="polite"></p>
<main>
<section id="state" aria-labelledby="state-title">
<h2 id="state-title">State</h2>
<p id="place"></p>
<div id="fluents"></div>
<div id="gone"></div>
</section>
<section id="choice" aria-labelledby="choice-title">
<h2 id="choice-title">What the plan does here</h2>
<p id="verdict" class="bad"></p>
<div id="rules"></div>
</section>
<section id="run" aria-labelledby="run-title">
<h2 id="run-title">Run</h2>
<p><label for="start">Begin in initial state</label> <input id="start" type="number" min="0"> <span id="start-last"></span></p>
<p class="buttons">
<button type="button" id="back" aria-keyshortcuts="Backspace">Back</button>
<button type="button" id="restart">Restart</button>
<button type="button" id="random">Random run</button>
<button type="button" id="goal">Shortest run to the goal</button>
</p>
<ol id="steps" start="0"></ol>
<p><label for="record">Record of this run, for <code>mbp replay</code></label></p>
<p class="buttons"><input id="record" readonly spellcheck="false"> <button type="button" id="copy">Copy</button></p>
<p id="record-note"></p>
<details>
<summary>Play a run from a file</summary>
<p><label for="witness">Explanation as <code>pulgazer explain --json</code> prints it</label> <input type="file" id="witness" accept=".json,application/json"></p>
</details>
<p id="sentence"></p>
</section>
<section id="map" aria-labelledby="map-title">
<h2 id="map-title">Map</h2>
<p class="buttons">
<button type="button" id="zoom-in" aria-label="Zoom in">+</button>
<button type="button" id="zoom-out" aria-label="Zoom out">&minus;</button>
<button type="button" id="zoom-reset">Whole map</button>
</p>
<svg class="hidden" aria-hidden="true"><marker id="arrow" refX="7" refY="4" markerWidth="9" markerHeight="9" markerUnits="userSpaceOnUse" orient="auto"><path d="M0 0L8 4L0 8z"/></marker></svg>
<svg id="drawing" role="group" aria-label="Configurations within two steps"></svg>
<p class="legend">Thick border: here. Box: initial. Double border: goal. Filled: on this run. Thick dashed arrow: on the run that was loaded, which &ldquo;&#9670;&rdquo; marks in the lists. Dashed with &ldquo;!&rdquo;: stuck. Dashed with &ldquo;&times;&rdquo;: the action can't be executed. Drag to move, turn the wheel to zoom.</p>
</section>
<section id="search" aria-labelledby="search-title">
<h2 id="search-title">Search</h2>
<p><label for="query">Fluents and actions, such as <code>(spilled)</code> or <code>-(at kitchen)</code></label></p>
<p><input id="query" type="search" list="names" autocomplete="off" spellcheck="false"></p>
<datalist id="names"></datalist>
<p id="found-count" role="status"></p>
<ul id="found"></ul>
</section>
</main>
<p class="keys">Keys: 1 to 9 take an outcome, Backspace goes back.</p>
<script type="application/json" id="data">"##;

const MIDDLE: &str = r##"</script>
<script type="application/json" id="handed">"##;

const TAIL: &str = r##"</script>
<script>
"use strict";

// The data: names of fluents and actions, how many outcomes each action has, the rules of the plan,
// and a node for each configuration (a state with a context) that the plan may reach: first the
// initial states, as `mbp replay` counts them. Places in these lists are the numbers by which all
// else speaks of them. And the explanation that was handed in, or null.
const data = JSON.parse(document.getElementById("data").textContent);
const handed = JSON.parse(document.getElementById("handed").textContent);
const { nodes, rules } = data;
const isTable = data.class !== "ctl";
const initialCount = nodes.filter((node) => node.initial).length;
const MINUS = "\u2212";
const MOST_RANDOM_STEPS = 50;
const MOST_LISTED = 500;
const MOST_FOUND = 50;

// ---- Elements. A name gets into the page as a text node or an attribute, never as HTML.

const byId = (id) => document.getElementById(id);
const show = (id, ...children) => byId(id).replaceChildren(...children);
const joined = (parts, between) => parts.filter(Boolean).join(between);
const kinds = (...names) => joined(names, " ");
const counted = (count, word) => `${count} ${word}${count === 1 ? "" : "s"}`;

function fill(element, attributes, children) {
  for (const [key, value] of Object.entries(attributes)) {
    if (key.startsWith("on")) element.addEventListener(key.slice(2), value);
    else if (value !== false) element.setAttribute(key, value);
  }
  element.append(...children);
  return element;
}

const make = (tag, attributes, ...children) =>
  fill(document.createElement(tag), attributes, children);
const draw = (tag, attributes, ...children) =>
  fill(document.createElementNS("http://www.w3.org/2000/svg", tag), attributes, children);

// ---- The plan

const truths = nodes.map((node) => new Set(node.true));
const isTrue = (at, fluent) => truths[at].has(fluent);
const matches = (literals, at) => literals.every(([fluent, value]) => isTrue(at, fluent) === value);

const fluentName = (fluent) => data.fluents[fluent];
const denied = (text) => `(not ${text})`;
const literalText = ([fluent, value]) => (value ? fluentName(fluent) : denied(fluentName(fluent)));
const cubeText = (literals) => `(${literals.map(literalText).join(" ")})`;
const caseText = ([literals, context]) => `(${cubeText(literals)} ${context})`;
const nextText = (next) => (Array.isArray(next) ? `(${next.map(caseText).join(" ")})` : next);
const stateText = (at) => nodes[at].true.map(fluentName).join(" ") || "()";
const contextText = (at) => (isTable ? "" : ` in context ${nodes[at].context}`);
const nodeText = (at) => `#${at}${contextText(at)}: ${stateText(at)}`;

// A rule as the text of a plan has it.
function ruleText({ action, context, literals, next }) {
  const asked = `${cubeText(literals)} ${data.actions[action]}`;
  return isTable ? `(rule ${asked})` : `(rule ${context} ${asked} ${nextText(next)})`;
}

// What the plan may do at a node: for each action that it has there the first rule that matches. A
// plan with contexts has one at most. The first of all is the one that `mbp replay` takes.
const choicesKept = [];
const choicesAt = (at) => (choicesKept[at] ??= findChoices(at));

function findChoices(at) {
  const { context, steps } = nodes[at];
  const choices = [];
  for (const [number, { action, context: wanted, literals }] of rules.entries()) {
    if (wanted !== context || !matches(literals, at)) continue;
    if (choices.some((choice) => choice.action === action)) continue;
    const taken = steps.filter((step) => step[0] === action);
    choices.push({ action, rule: number, steps: taken });
    if (!isTable) break;
  }
  return choices;
}

// What is wrong at a node, if anything: a sign for the map, and a sentence.
function troubleAt(at) {
  const choices = choicesAt(at);
  if (choices.length === 0) {
    if (isTable && nodes[at].goal) return null;
    const also = isTable ? ", and this is no goal state" : "";
    return { sign: "!", text: `Stuck: no rule matches${also}.` };
  }
  const blocked = choices.find((choice) => choice.steps.length === 0);
  if (blocked === undefined) return null;
  const name = data.actions[blocked.action];
  const isOpen = Array.isArray(rules[blocked.rule].next);
  const also = isOpen ? ", or the rule has no next context for any outcome" : "";
  return { sign: "\u00d7", text: `Can't be followed: ${name} can't be executed here${also}.` };
}

// What becomes true and false from one node to another.
function changes(from, to) {
  const added = nodes[to].true.filter((fluent) => !isTrue(from, fluent));
  const removed = nodes[from].true.filter((fluent) => !isTrue(to, fluent));
  return { added, removed, context: nodes[from].context !== nodes[to].context };
}

function changeText(from, to) {
  const { added, removed, context } = changes(from, to);
  const parts = added.map((fluent) => `+ ${fluentName(fluent)}`);
  parts.push(...removed.map((fluent) => `${MINUS} ${fluentName(fluent)}`));
  if (context) parts.push(`context ${nodes[to].context}`);
  return parts.length === 0 ? "no change" : parts.join("  ");
}

// ---- The run: an initial state, and steps, each with the rule that was followed

const run = { start: 0, steps: [] };
const isInitial = (number) => Number.isInteger(number) && nodes[number]?.initial === true;
const current = () => (run.steps.length === 0 ? run.start : run.steps.at(-1).to);

const edgeKey = (from, action, outcome) => `${from} ${action} ${outcome}`;
const madeStep = (from, choice, [action, outcome, to]) => {
  const isFirst = choice === choicesAt(from)[0];
  return { from, to, action, outcome, isFirst, key: edgeKey(from, action, outcome) };
};

function begin(start, steps, news) {
  Object.assign(run, { start, steps });
  render(news);
}

function take(choice, step) {
  const made = madeStep(current(), choice, step);
  run.steps.push(made);
  const change = changeText(made.from, made.to);
  const name = data.actions[made.action];
  render(`Step ${run.steps.length}: ${name}, outcome ${made.outcome}: ${change}.`);
}

function goBack(length) {
  if (length < 0 || length > run.steps.length) return;
  run.steps.length = length;
  render(`Back to ${length === 0 ? "the initial state" : `step ${length}`}.`);
}

// The steps from a node that `mbp replay` may make; or all of them.
const onward = (at, all) =>
  (all ? choicesAt(at) : choicesAt(at).slice(0, 1)).flatMap((choice) =>
    choice.steps.map((step) => madeStep(at, choice, step)),
  );

// The shortest steps from one of the first nodes to one that is wanted, or null.
function shortest(firsts, isWanted, all) {
  const before = new Map(firsts.map((at) => [at, null]));
  // Nodes that are added meanwhile are visited, too.
  for (const at of before.keys()) {
    if (isWanted(at)) return stepsBack(before, at);
    for (const step of onward(at, all)) {
      if (!before.has(step.to)) before.set(step.to, step);
    }
  }
  return null;
}

function stepsBack(before, last) {
  const steps = [];
  for (let step = before.get(last); step !== null; step = before.get(step.from)) steps.push(step);
  return { start: steps.length === 0 ? last : steps.at(-1).from, steps: steps.reverse() };
}

// A path that `mbp replay` can run, if there is one; else any.
const path = (firsts, isWanted) =>
  shortest(firsts, isWanted, false) ?? shortest(firsts, isWanted, true);

function goOn(steps, what) {
  run.steps.push(...steps);
  render(`${counted(steps.length, "step")} ${what}.`);
}

function runToGoal() {
  const found = path([current()], (at) => nodes[at].goal);
  if (found === null) render("The plan reaches no goal state from here.");
  else goOn(found.steps, "to the nearest goal state");
}

function runAtRandom() {
  const made = [];
  for (let at = current(); made.length < MOST_RANDOM_STEPS; at = made.at(-1).to) {
    const steps = onward(at, false);
    if (steps.length === 0) break;
    made.push(steps[Math.floor(Math.random() * steps.length)]);
  }
  goOn(made, "at random");
}

// Begins a shortest run that ends at the node.
function runTo(at) {
  const firsts = Array.from({ length: initialCount }, (_, number) => number);
  const { start, steps } = path(firsts, (other) => other === at);
  begin(start, steps, `A shortest run to configuration #${at}.`);
}

// ---- An explanation that was made elsewhere: a verdict, and a run that shows it

const WITNESS = "\u25c6";
const witness = { start: 0, steps: [], edges: new Set() };
const isOnWitness = (from, action, outcome) => witness.edges.has(edgeKey(from, action, outcome));

// Whether the run that is shown is the witness up to here.
const isWitness = () =>
  run.start === witness.start && run.steps.every(({ key }, i) => key === witness.steps[i]?.key);

// The steps of an explanation: its rules and outcomes are numbers from 0. Where the rules are
// missing, the first rule that matches is taken.
function stepsOf({ initial, outcomes, rules: numbers }) {
  if (!isInitial(initial)) throw new Error("it begins in no initial state");
  const steps = [];
  let at = initial;
  for (const outcome of outcomes) {
    const rule = rules[numbers?.[steps.length]];
    const choice = choicesAt(at).find((one) => rule === undefined || one.action === rule.action);
    const step = choice?.steps.find((one) => one[1] === outcome);
    if (step === undefined) throw new Error(`the plan has no such step ${steps.length + 1}`);
    steps.push(madeStep(at, choice, step));
    at = step[2];
  }
  return steps;
}

function play(explanation) {
  const { verdict, initial, cycle_from: cycleFrom, sentence } = explanation;
  const hasRun = initial !== null;
  const steps = hasRun ? stepsOf(explanation) : [];
  const edges = new Set(steps.map((step) => step.key));
  Object.assign(witness, { start: initial ?? 0, steps, edges });
  const told = typeof verdict === "string" && `Verdict: ${verdict}.`;
  const round = Number.isInteger(cycleFrom) && `It repeats from step ${cycleFrom + 1} on.`;
  const missing = !hasRun && "No run shows this verdict.";
  byId("sentence").textContent = joined([told, sentence, round, missing], " ");
  if (hasRun) begin(initial, [...steps], `A run of ${counted(steps.length, "step")} was loaded.`);
  else render("An explanation without a run was loaded.");
}

function tryToPlay(read) {
  try {
    play(read());
  } catch (error) {
    render(`This run can't be played: ${error.message}.`);
  }
}

// ---- What is shown of the run

function render(news) {
  const hadFocus = byId("rules").contains(document.activeElement);
  showState();
  showChoices();
  showRun();
  drawMap();
  byId("news").textContent = news;
  if (hadFocus) byId("rules").querySelector("button")?.focus();
}

// The word that a name begins with: its predicate.
const predicate = (name) => /^\(?([^\s()]*)/.exec(name)[1];

function marked(kind, sign, word, fluent) {
  const mark = make("span", { class: kind, "aria-hidden": "true" }, `${sign} `);
  const spoken = make("span", { class: "hidden" }, ` ${word}`);
  return make("li", { class: "name" }, mark, fluentName(fluent), spoken);
}

function showState() {
  const at = current();
  const { added, removed } = changes(run.steps.at(-1)?.from ?? at, at);
  const { context, initial, goal } = nodes[at];
  const turn = !isTable && `context ${context} of ${data.contexts}`;
  const marks = [`Configuration #${at}`, turn, initial && "initial state", goal && "goal state"];
  show("place", joined(marks, ", "));
  const groups = Map.groupBy(nodes[at].true, (fluent) => predicate(fluentName(fluent)));
  const shown = [...groups].flatMap(([key, fluents]) => [
    make("h3", {}, key),
    make("ul", {}, ...fluents.map((fluent) => fluentItem(fluent, added))),
  ]);
  show("fluents", ...(shown.length === 0 ? [make("p", {}, "No fluent is true.")] : shown));
  const gone = removed.map((fluent) => marked("removed", MINUS, "became false", fluent));
  const title = make("h3", {}, "No longer true");
  show("gone", ...(gone.length === 0 ? [] : [title, make("ul", {}, ...gone)]));
}

function fluentItem(fluent, added) {
  if (added.includes(fluent)) return marked("added", "+", "became true", fluent);
  return make("li", { class: "name" }, fluentName(fluent));
}

function showChoices() {
  const at = current();
  const trouble = troubleAt(at);
  show("verdict", trouble === null ? "" : `${trouble.sign} ${trouble.text}`);
  const ends = make("p", {}, "No rule matches: the run ends here, in a goal state.");
  let key = 0;
  const shown = choicesAt(at).flatMap((choice, place) => {
    const rule = make("p", { class: "rule" }, make("code", {}, ruleText(rules[choice.rule])));
    const number = `Rule ${choice.rule + 1} of ${rules.length}`;
    const title = place === 0 ? number : `${number} matches too (mbp replay takes the first)`;
    const action = make("p", {}, "Action ", make("code", {}, data.actions[choice.action]));
    const list = outcomeItems(at, choice, () => ++key);
    return [make("h3", {}, title), rule, action, make("ul", {}, ...list)];
  });
  show("rules", ...(shown.length === 0 && trouble === null ? [ends] : shown));
}

function outcomeItems(at, choice, nextKey) {
  if (choice.steps.length === 0) return [];
  const isOpen = Array.isArray(rules[choice.rule].next);
  const why = isOpen ? "no state, or none for which the rule has a next context" : "no state";
  return Array.from({ length: data.outcomes[choice.action] }, (_, outcome) => {
    const step = choice.steps.find((one) => one[1] === outcome);
    if (step !== undefined) return outcomeItem(at, choice, step, nextKey());
    return make("li", { class: "soft" }, `outcome ${outcome} leads to ${why}`);
  });
}

function outcomeItem(at, choice, step, key) {
  const isNext = isWitness() && isOnWitness(at, step[0], step[1]);
  const kind = kinds("outcome", isNext && "witness");
  const names = { type: "button", class: kind, "aria-keyshortcuts": key < 10 && key };
  const sign = key < 10 ? [make("kbd", { class: "key" }, key)] : [];
  const also = isNext ? ` ${WITNESS} on the run that was loaded` : "";
  const text = `outcome ${step[1]}: ${changeText(at, step[2])}${also}`;
  const button = make("button", { ...names, onclick: () => take(choice, step) }, ...sign, text);
  return make("li", {}, button);
}

function showRun() {
  byId("start").value = run.start;
  byId("back").disabled = run.steps.length === 0;
  const hidden = Math.max(0, run.steps.length - MOST_LISTED);
  const items = run.steps.slice(hidden).map(({ from, to, action, outcome }, i) => {
    const text = `${data.actions[action]} outcome ${outcome}: ${changeText(from, to)}`;
    const isMarked = run.start === witness.start && isOnWitness(from, action, outcome);
    return stepItem(hidden + i + 1, text, isMarked);
  });
  items.unshift(stepItem(0, `initial state ${run.start}: ${stateText(run.start)}`, false));
  if (hidden > 0) items[1].value = hidden + 1;
  show("steps", ...items);
  byId("steps").scrollTop = byId("steps").scrollHeight;
  const words = [run.start, ...run.steps.map((step) => step.outcome)];
  byId("record").value = `(record ${words.join(" ")})`;
  const other = run.steps.findIndex((step) => !step.isFirst);
  byId("record-note").textContent =
    other < 0 ? "" : `mbp replay takes another rule at step ${other + 1}, the first that matches.`;
}

function stepItem(length, text, isMarked) {
  const isHere = length === run.steps.length;
  const kind = kinds("plain", isHere && "here", isMarked && "witness");
  const mark = { class: kind, "aria-current": isHere && "step" };
  const button = { type: "button", ...mark, onclick: () => goBack(length) };
  const sign = isMarked ? [make("span", { "aria-hidden": "true" }, `${WITNESS} `)] : [];
  return make("li", {}, make("button", button, ...sign, text));
}

// ---- Search: nodes that have each word in the name of a true fluent or of an action that is taken
// there. A minus before a word turns it round.

function search(query) {
  const words = query.toLowerCase().match(/-?\([^)]*\)?|\S+/g) ?? [];
  const tests = words.map((word) => {
    const isWanted = !word.startsWith("-");
    const having = (name) => name.toLowerCase().includes(isWanted ? word : word.slice(1));
    return { isWanted, fluents: data.fluents.map(having), actions: data.actions.map(having) };
  });
  const has = (at, { fluents, actions, isWanted }) =>
    isWanted ===
    (nodes[at].true.some((one) => fluents[one]) || nodes[at].steps.some((one) => actions[one[0]]));
  const every = words.length === 0 ? [] : [...nodes.keys()];
  showFound(every.filter((at) => tests.every((test) => has(at, test))));
}

function showFound(found) {
  const more = found.length > MOST_FOUND ? `; the first ${MOST_FOUND} are listed` : "";
  show("found-count", `${counted(found.length, "configuration")} found${more}.`);
  const items = found.slice(0, MOST_FOUND).map((at) => {
    const button = { type: "button", class: "plain", onclick: () => runTo(at) };
    return make("li", {}, make("button", button, nodeText(at)));
  });
  show("found", ...items);
}

// ---- Counts. They look at every node, a part at a time, so that the page answers meanwhile.

function countAll(first, used, stopped) {
  const last = Math.min(nodes.length, first + 500);
  for (let at = first; at < last; at++) {
    choicesAt(at).forEach((choice) => used.add(choice.rule));
    if (troubleAt(at) !== null) stopped.push(at);
  }
  if (last < nodes.length) setTimeout(countAll, 0, last, used, stopped);
  else showCounts(used, stopped);
}

function showCounts(used, stopped) {
  const steps = nodes.reduce((sum, node) => sum + node.steps.length, 0);
  const goals = nodes.filter((node) => node.goal).length;
  const texts = [counted(nodes.length, "configuration"), counted(steps, "step")];
  texts.push(counted(initialCount, "initial state"), `${goals} in goal states`);
  show("counts", `${texts.join(", ")}, ${counted(rules.length, "rule")}. `);
  if (stopped.length > 0) {
    const go = { type: "button", id: "stopped", class: "bad", onclick: () => runTo(stopped[0]) };
    const text = `! stuck or can't be followed in ${stopped.length}: show one`;
    byId("counts").append(make("button", go, text));
  }
  const unused = rules.map((_, number) => number).filter((number) => !used.has(number));
  byId("unused").hidden = unused.length === 0;
  show("unused-count", `${counted(unused.length, "rule")} never used`);
  const item = (number) => make("li", {}, ruleText(rules[number]));
  show("unused-rules", ...unused.slice(0, MOST_LISTED).map(item));
}

// ---- Buttons and keys

function onKey(event) {
  const isTyping = event.target.matches?.("input, select, textarea") && !event.target.readOnly;
  if (isTyping || event.ctrlKey || event.altKey || event.metaKey) return;
  if (event.key === "Backspace") {
    event.preventDefault();
    goBack(run.steps.length - 1);
  } else if (/^[1-9]$/.test(event.key)) {
    byId("rules").querySelectorAll("button")[Number(event.key) - 1]?.click();
  }
}

// The way to copy that a page in a file of one's own may go.
function copyRecord() {
  byId("record").select();
  const isCopied = document.execCommand("copy");
  byId("news").textContent = isCopied ? "The record was copied." : "Copy the record by hand.";
}

function chooseStart() {
  const number = Number(byId("start").value);
  if (isInitial(number)) begin(number, [], `Initial state ${number}.`);
}

function listen() {
  show("start-last", `of 0 to ${initialCount - 1}`);
  byId("start").addEventListener("change", chooseStart);
  byId("back").addEventListener("click", () => goBack(run.steps.length - 1));
  byId("restart").addEventListener("click", () => goBack(0));
  byId("random").addEventListener("click", runAtRandom);
  byId("goal").addEventListener("click", runToGoal);
  byId("copy").addEventListener("click", copyRecord);
  byId("query").addEventListener("input", (event) => search(event.target.value));
  byId("witness").addEventListener("change", ({ target }) =>
    target.files[0]?.text().then((text) => tryToPlay(() => JSON.parse(text))),
  );
  document.addEventListener("keydown", onKey);
  const names = [...data.fluents, ...data.actions].slice(0, MOST_LISTED);
  show("names", ...names.map((name) => make("option", { value: name })));
  listenToMap();
}

function start() {
  listen();
  render("");
  if (handed !== null) tryToPlay(() => handed);
  countAll(0, new Set(), []);
}
// ---- The map: who leads here, here, and what may come within two steps, a column each

const MOST_IN_COLUMN = 12;
const WIDE = 250;
const SPACE = 96;
const before = nodes.map(() => []);
nodes.forEach(({ steps }, at) => steps.forEach((step) => before[step[2]].push(at)));

function columns() {
  const here = current();
  const seen = new Set([here]);
  const fresh = (list) => list.filter((at) => !seen.has(at) && seen.add(at));
  const following = (list) => fresh(list.flatMap((at) => nodes[at].steps.map((step) => step[2])));
  const first = following([here]);
  const second = following(first);
  return [fresh(before[here]), [here], first, second].filter((column) => column.length > 0);
}

const view = {};
const whole = {};
const applyView = () =>
  byId("drawing").setAttribute("viewBox", `${view.x} ${view.y} ${view.width} ${view.height}`);

function drawMap() {
  const places = new Map();
  const notes = [];
  columns().forEach((column, i) => {
    const listed = column.slice(0, MOST_IN_COLUMN);
    const top = (-(listed.length - 1) * SPACE) / 2;
    listed.forEach((at, j) => places.set(at, { x: i * WIDE, y: top + j * SPACE, column: i }));
    if (column.length > listed.length) {
      const text = `and ${column.length - listed.length} more`;
      notes.push(draw("text", { x: i * WIDE, y: top + listed.length * SPACE - 30 }, text));
    }
  });
  const visited = new Set([run.start, ...run.steps.map((step) => step.to)]);
  const edges = [...places.keys()].flatMap((from) => edgesFrom(from, places));
  const shapes = [...places].map(([at, place]) => nodeShape(at, place, visited));
  show("drawing", ...edges, ...shapes, ...notes);
  const ends = [...places.values()];
  const low = Math.max(...ends.map((place) => place.y));
  const right = Math.max(...ends.map((place) => place.x));
  Object.assign(whole, { x: -110, y: -low - 90, width: right + 220, height: 2 * low + 180 });
  showWhole();
}

const showWhole = () => applyView(Object.assign(view, whole));

// The edges from a node, one for each other end, with the actions and outcomes in its title.
function edgesFrom(from, places) {
  const shown = nodes[from].steps.filter((step) => places.has(step[2]));
  return [...Map.groupBy(shown, (step) => step[2])].map(([to, steps]) => {
    const names = steps.map(([action, outcome]) => `${data.actions[action]} ${outcome}`);
    const isMarked = steps.some(([action, outcome]) => isOnWitness(from, action, outcome));
    const kind = kinds("edge", from === current() && "onward", isMarked && "witness");
    const d = edgePath(places.get(from), places.get(to));
    const title = draw("title", {}, names.join("\n"));
    return draw("path", { class: kind, d, "marker-end": "url(#arrow)" }, title);
  });
}

function edgePath(from, to) {
  if (from === to) {
    const { x, y } = from;
    return `M${x - 18} ${y - 27}C${x - 40} ${y - 68} ${x + 40} ${y - 68} ${x + 18} ${y - 28}`;
  }
  if (from.column < to.column) {
    const middle = (from.x + to.x) / 2;
    return `M${from.x + 80} ${from.y}C${middle} ${from.y} ${middle} ${to.y} ${to.x - 82} ${to.y}`;
  }
  const low = Math.max(from.y, to.y) + 62;
  const [begins, ends] = [from.x - 20, to.x + 20];
  return `M${begins} ${from.y + 27}C${begins} ${low} ${ends} ${low} ${ends} ${to.y + 29}`;
}

function nodeShape(at, { x, y }, visited) {
  const trouble = troubleAt(at);
  const isHere = at === current();
  const { goal } = nodes[at];
  const kind = kinds("node", visited.has(at) && "lit", isHere && "current", trouble && "stopped");
  const label = joined([nodeText(at), goal && "goal state", trouble?.text], ", ");
  const change = isHere ? "here" : changeText(current(), at);
  const children = [draw("title", {}, label), outline(at, 80, 27, "shape")];
  if (goal) children.push(outline(at, 75, 22, "inner"));
  children.push(draw("text", { y: -3 }, kinds(trouble?.sign, `#${at}${contextText(at)}`)));
  children.push(draw("text", { y: 13 }, shortened(change)));
  const onclick = () => stepTo(at);
  const onkeydown = ({ key }) => key === "Enter" && onclick();
  const names = { class: kind, role: "link", tabindex: 0, "aria-label": label, onclick, onkeydown };
  return draw("g", { ...names, transform: `translate(${x} ${y})` }, ...children);
}

const shortened = (text) => (text.length > 17 ? `${text.slice(0, 16)}\u2026` : text);

function outline(at, width, height, kind) {
  const size = { width: 2 * width, height: 2 * height, rx: nodes[at].initial ? 0 : height };
  return draw("rect", { class: kind, x: -width, y: -height, ...size });
}

// Goes on to a node of the map; to one that isn't ahead by a run from the beginning.
function stepTo(at) {
  const found = path([current()], (other) => other === at);
  if (found === null) runTo(at);
  else if (found.steps.length > 0) goOn(found.steps, `to configuration #${at}`);
}

function zoom(factor) {
  const { width, height } = view;
  Object.assign(view, { width: width * factor, height: height * factor });
  move((width * (1 - factor)) / 2, (height * (1 - factor)) / 2);
}

function move(x, y) {
  view.x += x;
  view.y += y;
  applyView();
}

function listenToMap() {
  const drawing = byId("drawing");
  let held = null;
  drawing.addEventListener("pointerdown", (event) => (held = event));
  window.addEventListener("pointermove", (event) => {
    if (held === null) return;
    const { clientWidth: width, clientHeight: height } = drawing;
    const scale = Math.max(view.width / width, view.height / height);
    move((held.clientX - event.clientX) * scale, (held.clientY - event.clientY) * scale);
    held = event;
  });
  window.addEventListener("pointerup", () => (held = null));
  const turn = (event) => zoom(event.deltaY < 0 ? 0.85 : 1.18, event.preventDefault());
  drawing.addEventListener("wheel", turn, { passive: false });
  byId("zoom-in").addEventListener("click", () => zoom(0.8));
  byId("zoom-out").addEventListener("click", () => zoom(1.25));
  byId("zoom-reset").addEventListener("click", showWhole);
}
start();
</script>
</body>
</html>
"##;

/// What stands before the data.
pub(crate) fn page_head() -> &'static str
    ensures { result.now ≡ head_text }
{
    HEAD
}

/// What stands between the data and the run.
pub(crate) fn page_middle() -> &'static str
    ensures { result.now ≡ middle_text }
{
    MIDDLE
}

/// What stands after the run.
pub(crate) fn page_tail() -> &'static str
    ensures { result.now ≡ tail_text }
{
    TAIL
}
