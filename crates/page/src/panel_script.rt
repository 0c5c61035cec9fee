/// The fourth part of the script: the lines of the source and the state at a moment.
pub(crate) const PANELS: &str = "
// The processes that stand at each line at the moment.
let standing = new Map();
function stand() {
  standing = new Map();
  for (let number = 1; number < processes.length; number += 1) {
    const process = processes[number];
    if (process.made <= moment && process.over > moment) append(standing, process.line.at(moment), number);
  }
}
function isWaiting(number) {
  const kind = processes[number].lane.at(moment).state.kind;
  return kind === 'waits' || kind === 'enters' || kind === 'resumes' || kind === 'joins';
}
// The current process comes first.
function rank(number) { return number === current().process ? 0 : number; }
function fillLine(row, index) {
  const line = index + 1;
  const now = moment > 0 && current().line === line;
  row.classList.toggle('now', now);
  row.setAttribute('aria-selected', now);
  row.append(make('span', 'number', line));
  const marks = make('span', 'marks'), here = standing.get(line) || NONE;
  const shown = here.length > 3 ? here.slice().sort((a, b) => rank(a) - rank(b)).slice(0, 2) : here;
  for (const number of shown) {
    const mark = badge(number, isWaiting(number) ? 'waits' : number === current().process ? 'now' : '');
    mark.dataset.here = number;
    mark.title += ', ' + doing(processes[number], moment);
    marks.append(mark);
  }
  if (shown.length < here.length) {
    marks.append('+' + (here.length - shown.length));
    marks.title = 'processes ' + here.join(', ');
  }
  row.append(marks, make('span', 'words', source[index].replace(String.fromCharCode(13), '')));
}
function fillAction(row, index) {
  const k = shownActions ? shownActions[index] : index + 1;
  const action = actions[k];
  row.classList.toggle('now', k === moment);
  row.classList.toggle('hit', hits.length > 0 && hits[lowest(hits, k)] === k);
  row.setAttribute('aria-selected', k === moment);
  row.append(make('span', 'number', k), badge(action.process), ' ',
    make('span', 'words', action.text.slice(action.text.indexOf(' ') + 1)));
  row.append(make('span', 'at', (action.line ? '  :' + action.line : '') + (action.more ? ' ' + action.more : '')));
}

function valueOf(type, value) {
  if (type === 'BOOLEAN') return value ? 'TRUE' : 'FALSE';
  if (type === 'PROCESS') return value ? 'process ' + value : 'no process';
  return String(value);
}
function elementAt(member, index, time) {
  const track = member.values.get(index);
  return track ? track.at(time) : 0;
}
function appendValue(cell, monitor, number, index) {
  const member = monitors[monitor].members[number];
  const set = moment > 0 ? current().set : undefined;
  const text = valueOf(member.type, elementAt(member, index, moment));
  if (set && set[0] === monitor && set[1] === number && set[2] === index) {
    const changed = make('span', 'changed', text);
    changed.title = 'was ' + valueOf(member.type, elementAt(member, index, moment - 1));
    cell.append(changed);
  } else cell.append(text);
}
// Of long arrays those elements are shown that are set somewhere in the run.
function fillValue(cell, monitor, number) {
  const member = monitors[monitor].members[number];
  if (member.type !== 'ARRAY') { appendValue(cell, monitor, number, 0); return; }
  const isLong = member.count > 64;
  const indices = isLong ? [...member.values.keys()].sort((a, b) => a - b) : Array.from({length: member.count}, (_, index) => index);
  cell.append('[');
  indices.forEach((index, place) => {
    if (place) cell.append(', ');
    if (isLong) cell.append(index + ': ');
    appendValue(cell, monitor, number, index);
  });
  cell.append(isLong ? ', else 0]' : ']');
}
function waiters(test) {
  const found = [];
  for (let number = 1; number < processes.length; number += 1) {
    const process = processes[number];
    if (process.made <= moment && test(process.lane.at(moment).state)) found.push(number);
  }
  return found;
}
function fillMonitor(box, monitor) {
  const head = make('div');
  const holder = monitor.holder.at(moment);
  head.append(make('strong', '', monitor.name), ' ');
  if (holder > 0) head.append('held by ', badge(holder));
  else head.append(make('span', holder < 0 ? 'wrong' : 'at', holder < 0 ? 'abandoned' : 'free'));
  const rivals = waiters(state => (state.kind === 'enters' || state.kind === 'resumes') && state.monitor === monitor.number);
  if (rivals.length) { head.append('; wait for it: '); appendNumbers(head, rivals, 'waits'); }
  head.dataset.holder = holder;
  box.append(head);
  const table = make('table');
  monitor.members.forEach((member, number) => {
    const row = make('tr'), cell = make('td', 'value');
    row.dataset.member = monitor.name + '.' + member.name;
    row.append(make('td', '', member.name), cell);
    if (member.type === 'CONDITION') {
      const asleep = waiters(state => state.kind === 'waits' && state.monitor === monitor.number && state.condition === number);
      if (asleep.length) appendNumbers(cell, asleep, 'waits'); else cell.append(make('span', 'at', 'nobody waits'));
    } else fillValue(cell, monitor.number, number);
    table.append(row);
  });
  box.append(table);
}
function fillMonitors() {
  const all = [];
  for (const monitor of monitors) {
    if (filter.monitor >= 0 && filter.monitor !== monitor.number) continue;
    const box = make('div', 'monitor');
    box.dataset.monitor = monitor.name;
    fillMonitor(box, monitor);
    all.push(box);
  }
  byId('monitors').replaceChildren(...all);
}
function whereIs(process) {
  const stack = process.stack.at(moment), top = stack[stack.length - 1];
  let text = top.name + ', line ' + process.line.at(moment);
  if (stack.length > 1) text += ', called at ' + top.line;
  return text;
}
function fillProcess(process) {
  const row = make('tr', process.number === current().process ? 'chosen' : '');
  const sign = make('td'), cell = make('td');
  row.dataset.process = process.number;
  row.dataset.line = process.line.at(moment);
  row.dataset.doing = doing(process, moment);
  sign.append(badge(process.number, isWaiting(process.number) ? 'waits' : ''));
  const kind = process.lane.at(moment).state.kind;
  cell.append(make('span', kind === 'dies' || kind === 'aborted' ? 'wrong' : '', doing(process, moment)));
  if (process.over > moment) cell.append(make('span', 'at', ' in ' + whereIs(process)));
  row.append(sign, cell);
  return row;
}
// Rows that say the same as before are kept.
const processRows = new Map();
let listed = '';
function processRow(number) {
  const process = processes[number];
  const says = [doing(process, moment), process.line.at(moment), process.stack.index(moment), number === current().process].join(';');
  const known = processRows.get(number);
  if (known && known.says === says) return known.row;
  const row = fillProcess(process);
  if (known) known.row.replaceWith(row);
  processRows.set(number, {says, row});
  return row;
}
function fillProcesses() {
  const numbers = shownLanes.filter(number => processes[number].made <= moment);
  const rows = numbers.map(processRow);
  if (numbers.join() !== listed) byId('processes').replaceChildren(...rows);
  listed = numbers.join();
}
// At the end of a hang: who waits for whom.
function hangOf(process) {
  const {state} = process.lane.at(end);
  if (state.kind === 'waits') return 'process ' + process.number + ' waits on ' + conditionName(state) + ', and nobody is left to wake it';
  return 'process ' + process.number + ' ' + doing(process, end);
}
function fillHang() {
  const box = byId('hang');
  if (!run.stuck || moment < end) { box.replaceChildren(); return; }
  const parts = [make('h2', '', 'Stuck: who waits for whom')];
  for (const circle of circles(end)) {
    const rest = circle.slice(1).concat(circle[0]).join(', which waits for process ');
    parts.push(make('p', 'circle', 'a circle: process ' + circle[0] + ' waits for process ' + rest));
  }
  for (let number = 1; number < processes.length; number += 1) {
    if (processes[number].over > end) parts.push(make('p', '', hangOf(processes[number])));
  }
  box.replaceChildren(...parts);
}
";
