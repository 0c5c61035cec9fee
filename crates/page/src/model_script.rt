/// The first part of the script: what the run says of each process, monitor and variable, by moments. At moment k the
/// first k actions have been done.
pub(crate) const MODEL: &str = "</script>
<script>
'use strict';
const run = JSON.parse(document.getElementById('run').textContent);
const actions = run.actions;
const end = actions.length - 1;
const source = run.source.split(String.fromCharCode(10));

// What something is from moment to moment.
class Track {
  constructor(value, time) { this.times = [time || 0]; this.values = [value]; }
  put(time, value) {
    const top = this.times.length - 1;
    if (this.times[top] >= time) { this.values[top] = value; return; }
    this.times.push(time);
    this.values.push(value);
  }
  // The number of its last change up to a moment.
  index(time) {
    let low = 0, high = this.times.length - 1;
    while (low < high) {
      const middle = (low + high + 1) >> 1;
      if (this.times[middle] <= time) low = middle; else high = middle - 1;
    }
    return low;
  }
  at(time) { return this.values[this.index(time)]; }
  last() { return this.values[this.values.length - 1]; }
}

// The first of rising numbers that is at least this one.
function lowest(numbers, least) {
  let low = 0, high = numbers.length;
  while (low < high) {
    const middle = (low + high) >> 1;
    if (numbers[middle] < least) low = middle + 1; else high = middle;
  }
  return low;
}

const RUNS = {kind: 'runs', monitor: -1, condition: -1, child: 0, by: 0};
const NONE = [];
const WAITS = new Set(['waits', 'enters', 'resumes']);
const monitors = run.monitors.map((monitor, number) => ({
  number, name: monitor.name, holder: new Track(0),
  members: monitor.members.map(([name, type, count]) => ({name, type, count, values: new Map()})),
}));
const pieces = new Map(run.pieces.map(piece => [(piece.monitor ? piece.monitor + '.' : '') + piece.name, piece.line]));
const processes = [null];
const doneAt = new Map();
const kinds = [''];
const wakes = [];
const links = [];
const signs = [];

function addProcess(name, time) {
  const line = pieces.get(name.split('(')[0]) || 0;
  processes.push({
    number: processes.length, name, made: time, over: Infinity, state: RUNS, trial: null, held: NONE, own: [],
    line: new Track(line, time), stack: new Track([{name, line: 0}], time), lane: new Track({state: RUNS, held: NONE}, time),
  });
}

function append(map, key, value) {
  const list = map.get(key);
  if (list) list.push(value); else map.set(key, [value]);
}

// What a process does beside holding monitors: a failed attempt to take one counts until it takes it. Where the actions
// say what it waits for they are right.
function settle(process, time) {
  const state = process.trial && !WAITS.has(process.state.kind) ? process.trial : process.state;
  const before = process.lane.last();
  if (before.state === state && before.held === process.held) return;
  process.lane.put(time, {state, held: process.held});
}

function take(number, holder, time) {
  const monitor = monitors[number];
  const before = processes[monitor.holder.last()];
  if (before) {
    before.held = before.held.filter(other => other !== number);
    settle(before, time);
  }
  if (holder > 0) {
    const process = processes[holder];
    process.held = process.held.concat(number);
    settle(process, time);
  }
  monitor.holder.put(time, holder);
}

// How many procedures run in a process: those that returned are gone, and a RECOVER part has begun.
function nest(process, depth, time) {
  let stack = process.stack.last();
  if (stack.length === depth) return;
  stack = stack.slice(0, depth);
  while (stack.length < depth) stack.push({name: 'RECOVER', line: process.line.last()});
  process.stack.put(time, stack);
}

function change([number, depth, kind, first, second], time) {
  const process = processes[number];
  nest(process, depth, time);
  if (kind === 'runs') process.state = RUNS;
  else process.state = {
    kind, monitor: kind === 'joins' || first === undefined ? -1 : first, condition: second === undefined ? -1 : second,
    child: kind === 'joins' ? first : 0, by: 0,
  };
  if (kind === 'ended' || kind === 'aborted') process.over = time;
  settle(process, time);
}

function store([monitor, member, index, value], time) {
  const values = monitors[monitor].members[member].values;
  const track = values.get(index);
  if (track) { track.put(time, value); return; }
  const first = new Track(0, 0);
  first.put(time, value);
  values.set(index, first);
}

function follow(action, k) {
  const from = action.text.indexOf(' ') + 1, to = action.text.indexOf(' ', from);
  const kind = to < 0 ? action.text.slice(from) : action.text.slice(from, to);
  const process = processes[action.process];
  kinds.push(kind);
  process.own.push(k);
  if (action.line) {
    process.line.put(k, action.line);
    append(doneAt, action.line, k);
  }
  if (kind === 'fork') {
    addProcess(action.more || '', k);
    links.push({k, from: action.process, to: Number(action.text.slice(to)), kind});
  } else if (kind === 'join') {
    links.push({k, from: Number(action.text.slice(to)), to: action.process, kind});
  } else if (kind === 'call') {
    process.stack.put(k, process.stack.last().concat({name: action.more || '', line: action.line || 0}));
  } else if (kind === 'enter' || kind === 'resume' || kind === 'kill') {
    process.trial = null;
  }
  if (kind === 'kill' || kind === 'stray' || kind === 'fault' || kind === 'abandon') signs.push(k);
  if (kind === 'stray' || (action.wakes && action.wakes.length)) wakes.push(k);
  for (const woken of action.wakes || NONE) links.push({k, from: action.process, to: woken, kind: 'wake'});
  if (action.holds) take(action.holds[0], action.holds[1], k);
  if (action.set) store(action.set, k);
  for (const now of action.now) change(now, k);
}

// The attempts to take a monitor that failed when so many actions were done.
let tried = 0;
function tryAll(k) {
  for (; tried < run.attempts.length && run.attempts[tried][0] <= k; tried += 1) {
    const [, number, by, monitor] = run.attempts[tried];
    const process = processes[number];
    if (!process) continue;
    process.trial = {kind: 'enters', monitor, condition: -1, child: 0, by};
    settle(process, k);
  }
}

addProcess('MAIN', 0);
tryAll(0);
for (let k = 1; k <= end; k += 1) {
  follow(actions[k], k);
  tryAll(k);
}

// What is known of a process at a moment.
function holderOf(monitor, time) { return monitor < 0 ? 0 : monitors[monitor].holder.at(time); }
function conditionName(state) { return monitors[state.monitor].name + '.' + monitors[state.monitor].members[state.condition].name; }
function monitorName(number) { return number < 0 ? 'a monitor' : monitors[number].name; }
function heldBy(state, time) {
  const holder = holderOf(state.monitor, time) || state.by;
  return holder > 0 ? ', held by process ' + holder : holder < 0 ? ', which is abandoned' : '';
}
function doing(process, time) {
  const {state, held} = process.lane.at(time);
  const holds = held.length ? 'holds ' + held.map(monitorName).join(', ') : '';
  const behind = holds ? '; ' + holds : '';
  switch (state.kind) {
    case 'enters': return 'waits for ' + monitorName(state.monitor) + heldBy(state, time) + behind;
    case 'resumes': return 'was woken, waits for ' + monitorName(state.monitor) + heldBy(state, time) + behind;
    case 'waits': return 'waits on ' + conditionName(state) + behind;
    case 'joins': return 'waits for the end of process ' + state.child + behind;
    case 'dies': return 'is dying' + behind;
    case 'ended': return 'has ended';
    case 'aborted': return 'aborted: ' + causeOf(process);
    default: return holds || 'runs';
  }
}
function causeOf(process) {
  for (let index = process.own.length - 1; index >= 0; index -= 1) {
    const k = process.own[index];
    if (kinds[k] === 'kill') return 'it was killed';
    if (kinds[k] === 'fault') return actions[k].more || actions[k].text;
  }
  return '';
}
// Which one process a process waits for, or 0.
function awaited(process, time) {
  const {state} = process.lane.at(time);
  if (state.kind === 'joins') return state.child;
  if (state.kind !== 'enters' && state.kind !== 'resumes') return 0;
  return Math.max(holderOf(state.monitor, time) || state.by, 0);
}
function circles(time) {
  const found = [];
  for (let first = 1; first < processes.length; first += 1) {
    const circle = [first];
    let next = awaited(processes[first], time);
    while (next > first && circle.length < processes.length) {
      circle.push(next);
      next = awaited(processes[next], time);
    }
    if (next === first) found.push(circle);
  }
  return found;
}
// Which monitors an action is about.
function concerns(action, monitor) {
  if (action.holds && action.holds[0] === monitor) return true;
  if (action.set && action.set[0] === monitor) return true;
  const word = action.text.split(' ')[2] || '';
  return word.split('.')[0] === monitors[monitor].name;
}
function touches(action, number) {
  return action.process === number || action.now.some(now => now[0] === number);
}
";
