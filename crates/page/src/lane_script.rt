/// The third part of the script: a lane for each process over time, of which what is in view is drawn.
pub(crate) const LANES: &str = "
const LANE = 30, GUTTER = 190, RULE = 18;
const lanes = byId('lanes'), canvas = byId('canvas'), pen = canvas.getContext('2d');
const view = {left: 0, scale: 14, wide: 0, high: 0};
let colours = {};
let shades = [];
let shownLanes = [];

// A pattern for each of seven monitors, over the colour of whoever holds it.
const STROKES = ['', 'M-2,2L2,-2M0,8L8,0M6,10L10,6', 'M2,2h3v3h-3z', 'M-2,6L2,10M0,0L8,8M6,-2L10,2', 'M0,2H8M0,6H8', 'M2,0V8M6,0V8', 'M0,4H8M4,0V8'];
function shade(stroke) {
  const tile = make('canvas');
  tile.width = tile.height = 8;
  const tilePen = tile.getContext('2d');
  tilePen.strokeStyle = 'rgba(0,0,0,.55)';
  tilePen.lineWidth = 1.4;
  tilePen.stroke(new Path2D(stroke));
  return pen.createPattern(tile, 'repeat');
}
function readColours() {
  const style = getComputedStyle(document.documentElement);
  for (const name of ['ground', 'ink', 'quiet', 'line', 'soft', 'mark', 'wrong', 'now', 'p0', 'p1', 'p2', 'p3', 'p4', 'p5', 'p6']) {
    colours[name] = style.getPropertyValue('--' + name).trim();
  }
  shades = STROKES.map(shade);
}
const colourOf = number => colours['p' + (number - 1) % 7];
const across = time => GUTTER + (time - view.left) * view.scale;
const momentAt = left => view.left + (left - GUTTER) / view.scale;

function chooseLanes() {
  shownLanes = [];
  for (let number = 1; number < processes.length; number += 1) {
    if (!filter.process || isNear(number)) shownLanes.push(number);
  }
}
// With a process chosen its lane is shown, and those of whoever woke, made or joined it, or was by it.
let near = null;
function isNear(number) {
  if (!near || near.of !== filter.process) {
    near = {of: filter.process, set: new Set([filter.process])};
    for (const link of links) {
      if (link.from === filter.process) near.set.add(link.to);
      if (link.to === filter.process) near.set.add(link.from);
    }
  }
  return near.set.has(number);
}

function sizeLanes() {
  const high = RULE + shownLanes.length * LANE + 6;
  byId('tall').style.height = high + 'px';
  lanes.style.height = high + 2 + 'px';
  view.wide = lanes.clientWidth;
  view.high = Math.min(high, lanes.clientHeight || high);
  const ratio = window.devicePixelRatio || 1;
  canvas.width = view.wide * ratio;
  canvas.height = view.high * ratio;
  canvas.style.width = view.wide + 'px';
  canvas.style.height = view.high + 'px';
  pen.setTransform(ratio, 0, 0, ratio, 0, 0);
}
// Where the line of a process's lane is, or null: words stand above it.
let places = new Map();
function place() {
  places = new Map();
  shownLanes.forEach((number, index) => places.set(number, RULE + index * LANE + 19 - lanes.scrollTop));
}
const heightOf = number => places.has(number) ? places.get(number) : null;

function stroke(x1, x2, y, colour, wide, dashes) {
  pen.strokeStyle = colour;
  pen.lineWidth = wide;
  pen.setLineDash(dashes);
  pen.beginPath();
  pen.moveTo(x1, y);
  pen.lineTo(x2, y);
  pen.stroke();
  pen.setLineDash(NONE);
}
function write(text, x, y, colour, wide) {
  if (wide < text.length * 4.5) return;
  pen.save();
  pen.beginPath();
  pen.rect(x, y - 8, wide - 2, 16);
  pen.clip();
  pen.fillStyle = colour;
  pen.fillText(text, x, y);
  pen.restore();
}
// A word beside a sign, over what stands there.
function note(text, x, y) {
  pen.fillStyle = colours.ground;
  pen.fillRect(x - 1, y - 6, pen.measureText(text).width + 3, 11);
  pen.fillStyle = colours.wrong;
  pen.fillText(text, x, y);
}
// A piece of a lane in which a process does one thing.
function drawPiece(number, {state, held}, x1, x2, y) {
  const colour = colourOf(number), wide = x2 - x1;
  if (state.kind === 'ended' || state.kind === 'aborted') return;
  if (held.length) {
    pen.fillStyle = colour;
    pen.fillRect(x1, y - 6, wide, 12);
    const monitor = held[held.length - 1];
    pen.fillStyle = shades[monitor % 7];
    pen.fillRect(x1, y - 6, wide, 12);
    if (wide > 3) {
      pen.strokeStyle = colours.ink;
      pen.lineWidth = .8;
      pen.strokeRect(x1, y - 6, wide, 12);
    }
    if (state.kind === 'runs') write(held.map(monitorName).join(' > '), x1 + 1, y - 12, colours.ink, wide);
  }
  const edge = held.length ? y + 9 : y;
  switch (state.kind) {
    case 'enters':
      stroke(x1, x2, edge, colour, 4, [7, 4]);
      write('for ' + monitorName(state.monitor), x1 + 1, y - 12, colours.ink, wide);
      break;
    case 'resumes':
      stroke(x1, x2, edge, colour, 4, [2, 3]);
      write('for ' + monitorName(state.monitor), x1 + 1, y - 12, colours.ink, wide);
      break;
    case 'waits':
      pen.strokeStyle = colour;
      pen.lineWidth = 2;
      pen.setLineDash([4, 3]);
      pen.strokeRect(x1 + 1, edge - 6, Math.max(wide - 2, 1), 12);
      pen.setLineDash(NONE);
      write(conditionName(state).split('.')[1], x1 + 1, y - 12, colours.ink, wide);
      break;
    case 'joins':
      stroke(x1, x2, edge, colours.quiet, 1.5, [1, 4]);
      write('for process ' + state.child, x1 + 1, y - 12, colours.quiet, wide);
      break;
    case 'dies':
      stroke(x1, x2, edge, colours.wrong, 4, NONE);
      break;
    default:
      if (!held.length) stroke(x1, x2, edge, colour, 2.5, NONE);
  }
}
function drawEnd(number, y) {
  const process = processes[number];
  const x = across(process.over);
  if (process.over > end || x < GUTTER || x > view.wide) return;
  if (process.lane.last().state.kind === 'ended') {
    pen.fillStyle = colours.ink;
    pen.fillRect(x - 4, y - 4, 8, 8);
    return;
  }
  cross(x, y, colours.wrong);
}
function cross(x, y, colour) {
  pen.strokeStyle = colour;
  pen.lineWidth = 3;
  pen.beginPath();
  pen.moveTo(x - 5, y - 5);
  pen.lineTo(x + 5, y + 5);
  pen.moveTo(x - 5, y + 5);
  pen.lineTo(x + 5, y - 5);
  pen.stroke();
}
// Pieces that are narrower than a pixel are drawn where none was.
function drawLane(number, from, to) {
  const process = processes[number], y = heightOf(number), track = process.lane;
  if (y < -LANE || y > view.high + LANE || process.made > to) return;
  let drawn = -1;
  for (let index = track.index(Math.max(from, process.made)); index < track.times.length; index += 1) {
    const start = track.times[index];
    if (start > to) break;
    const next = index + 1 < track.times.length ? track.times[index + 1] : end + 1;
    const x1 = Math.max(across(start), GUTTER), x2 = Math.min(across(next), view.wide);
    if (x2 - drawn < 1) continue;
    drawPiece(number, track.values[index], x1, Math.max(x2, x1 + 1), y);
    drawn = x2;
  }
  drawEnd(number, y);
}
function drawDots(from, to) {
  if (view.scale < 5) return;
  for (let k = Math.max(1, Math.ceil(from)); k <= Math.min(end, to); k += 1) {
    const y = heightOf(actions[k].process);
    if (y === null || across(k) < GUTTER) continue;
    pen.beginPath();
    pen.arc(across(k), y, 2.4, 0, 7);
    pen.fillStyle = colours.ground;
    pen.fill();
    pen.strokeStyle = colours.ink;
    pen.lineWidth = 1;
    pen.stroke();
  }
}
const ARROWS = {fork: ['p2', NONE], join: ['p3', [4, 2]], wake: ['now', NONE]};
function drawArrow(link, isHead) {
  const y1 = heightOf(link.from), y2 = heightOf(link.to), x = across(link.k);
  if (y1 === null || y2 === null || x < GUTTER || x > view.wide) return;
  const down = y2 > y1 ? 1 : -1, [colour, dashes] = ARROWS[link.kind];
  const tip = y2 - 9 * down;
  if (isHead) {
    pen.fillStyle = colours[colour];
    pen.beginPath();
    pen.moveTo(x, tip + 5 * down);
    pen.lineTo(x - 4, tip - 3 * down);
    pen.lineTo(x + 4, tip - 3 * down);
    pen.fill();
    return;
  }
  for (const [paint, wide] of [[colours.ground, 5], [colours[colour], link.kind === 'wake' ? 2.4 : 1.6]]) {
    pen.strokeStyle = paint;
    pen.lineWidth = wide;
    pen.setLineDash(paint === colours.ground ? NONE : dashes);
    pen.beginPath();
    pen.moveTo(x, y1 + 3 * down);
    pen.lineTo(x, tip);
    pen.stroke();
  }
  pen.setLineDash(NONE);
}
// The heads lie over the lines, since one action may wake several.
function drawArrows(from, to) {
  for (const isHead of [false, true]) {
    let pixel = -9;
    for (let index = lowestLink(from); index < links.length && links[index].k <= to; index += 1) {
      const x = across(links[index].k);
      if (view.scale < 1 && x - pixel < 3) continue;
      drawArrow(links[index], isHead);
      pixel = x;
    }
  }
}
function lowestLink(k) {
  let low = 0, high = links.length;
  while (low < high) {
    const middle = (low + high) >> 1;
    if (links[middle].k < k) low = middle + 1; else high = middle;
  }
  return low;
}
// Kills and stray wakes, faults and abandoned monitors.
function drawSigns(from, to) {
  for (let index = lowest(signs, from); index < signs.length && signs[index] <= to; index += 1) {
    const k = signs[index], x = across(k), y = heightOf(actions[k].process);
    if (y === null || x < GUTTER) continue;
    if (kinds[k] === 'stray') {
      pen.strokeStyle = colours.wrong;
      pen.lineWidth = 2.5;
      pen.beginPath();
      pen.moveTo(x - 5, y - 13);
      pen.lineTo(x + 2, y - 10);
      pen.lineTo(x - 2, y - 7);
      pen.lineTo(x + 1, y);
      pen.stroke();
      note('stray', x + 5, y - 12);
    } else {
      pen.fillStyle = colours.wrong;
      pen.beginPath();
      pen.moveTo(x, y - 6);
      pen.lineTo(x + 6, y);
      pen.lineTo(x, y + 6);
      pen.lineTo(x - 6, y);
      pen.fill();
      if (kinds[k] !== 'abandon') note(kinds[k], x + 1, y - 12);
    }
  }
}
function drawRule(from, to) {
  pen.fillStyle = colours.soft;
  pen.fillRect(0, 0, view.wide, RULE);
  let apart = 1;
  while (apart * view.scale < 60) apart *= String(apart)[0] === '2' ? 2.5 : 2;
  pen.fillStyle = colours.quiet;
  pen.textAlign = 'center';
  for (let k = Math.max(0, Math.ceil(from / apart) * apart); k <= Math.min(to, end); k += apart) {
    if (across(k) < GUTTER) continue;
    pen.fillText(k, across(k), RULE / 2);
    pen.fillRect(across(k), RULE - 3, 1, 3);
  }
  pen.textAlign = 'left';
}
function drawNames() {
  pen.fillStyle = colours.ground;
  pen.fillRect(0, RULE, GUTTER - 6, view.high);
  for (const number of shownLanes) {
    const y = heightOf(number);
    if (y < RULE || y > view.high + LANE) continue;
    pen.fillStyle = colourOf(number);
    pen.beginPath();
    pen.roundRect(6, y - 11, 26, 16, 8);
    pen.fill();
    pen.strokeStyle = colours.ink;
    pen.lineWidth = number === current().process ? 2.5 : .6;
    pen.stroke();
    pen.fillStyle = (number - 1) % 7 === 0 ? '#fff' : '#000';
    pen.textAlign = 'center';
    pen.fillText(number, 19, y - 3);
    pen.textAlign = 'left';
    write(processes[number].name.slice(0, 21), 38, y - 3, colours.ink, GUTTER - 40);
  }
  pen.fillStyle = colours.soft;
  pen.fillRect(0, 0, GUTTER - 6, RULE);
  pen.fillStyle = colours.quiet;
  pen.fillText('action', 6, RULE / 2);
}
function drawCursor() {
  const x = across(moment);
  if (x < GUTTER - 1) return;
  pen.fillStyle = colours.now;
  pen.fillRect(x - 1, RULE - 4, 2, view.high);
  pen.beginPath();
  pen.moveTo(x - 6, RULE - 9);
  pen.lineTo(x + 6, RULE - 9);
  pen.lineTo(x, RULE - 1);
  pen.fill();
}
function drawLanes() {
  const from = view.left - 1, to = momentAt(view.wide) + 1;
  place();
  pen.font = '11px DejaVu Sans Mono, ui-monospace, monospace';
  pen.textBaseline = 'middle';
  pen.fillStyle = colours.ground;
  pen.fillRect(0, 0, view.wide, view.high);
  for (const number of shownLanes) drawLane(number, from, to);
  drawArrows(Math.max(0, from), to);
  drawDots(from, to);
  drawSigns(Math.max(0, from), to);
  drawCursor();
  drawNames();
  drawRule(from, to);
}
// Keeps the moment in view.
function followLanes() {
  const wide = (view.wide - GUTTER) / view.scale;
  if (moment < view.left + wide * .05 || moment > view.left + wide * .9) view.left = moment - wide / 2;
  hold();
  const index = shownLanes.indexOf(current().process);
  const top = index * LANE;
  if (index >= 0 && (top < lanes.scrollTop || top + LANE + RULE > lanes.scrollTop + lanes.clientHeight)) {
    lanes.scrollTop = top - lanes.clientHeight / 2;
  }
}
function hold() {
  const wide = (view.wide - GUTTER) / view.scale;
  view.left = Math.max(-.5, Math.min(view.left, end + 1.5 - wide));
}
function zoom(by, about) {
  const time = about === undefined ? moment : momentAt(about), x = across(time);
  const least = Math.min(14, (view.wide - GUTTER - 8) / (end + 2));
  view.scale = Math.max(least, Math.min(60, view.scale * by));
  view.left = time - (x - GUTTER) / view.scale;
  hold();
  drawLanes();
}
";
