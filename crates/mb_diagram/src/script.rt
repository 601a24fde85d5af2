//! What a page does where scripts run.

/// The end of a page, behind the journals: a click on an actor opens its journal, one on a row leads to its entry, and one on who sent
/// what came to the entry that is its cause. A choice takes out the rows and the entries that do not fit.
pub(crate) const PAGE_END: &str = "</aside>
</main>
<script>
  document.body.classList.add('scripted');
  const all = (query) => Array.from(document.querySelectorAll(query));
  const byId = (id) => document.getElementById(id);
  const picture = document.querySelector('.diagram > svg:not(.names)');
  const rows = all('.row'), entries = all('tr.entry'), lanes = all('.lane'), page = picture.querySelector('.page');
  const ends = all('.end').filter((end) => !end.closest('.below'));
  const below = picture.querySelector('.below'), height = Number(picture.getAttribute('height')), width = picture.getAttribute('width');
  // How high a row is, and where it stands with all rows above it.
  const rowHeight = 28, placeOf = (row) => Number(row.dataset.y), first = rows.length > 0 ? placeOf(rows[0]) : 0;
  const namesHeight = Number(document.querySelector('.names').getAttribute('height'));
  const mark = document.createElementNS(picture.namespaceURI, 'rect');
  mark.setAttribute('class', 'mark hidden');
  mark.setAttribute('width', width);
  mark.setAttribute('height', rowHeight);
  page.after(mark);
  lanes.forEach((lane) => { lane.dataset.path = lane.getAttribute('d'); });

  // The row of each entry: those that no other row has are in the first, of those that were created.
  const rowOf = new Map();
  rows.filter((row) => row.dataset.by && row.dataset.entries || row.querySelector('.arrow[marker-end]')).forEach((row) => {
    let line = byId(row.dataset.entry);
    for (let left = Number(row.dataset.entries); left > 0 && line; left -= 1, line = line.nextElementSibling) rowOf.set(line, row);
  });
  entries.forEach((line) => { if (!rowOf.has(line)) rowOf.set(line, rows[0]); });

  // Where rows are taken out, those below stand higher. Of a long diagram only what is near is drawn.
  const diagram = document.querySelector('.diagram'), near = 80;
  let shownRows = rows, drawn = [];
  const placeNow = (row) => placeOf(row) - rowHeight * row.above;
  const draw = () => {
    const middle = (diagram.scrollTop + diagram.clientHeight / 2 - first) / rowHeight;
    const from = Math.max(0, Math.floor(middle) - near), now = shownRows.slice(from, Math.floor(middle) + near);
    const kept = new Set(now);
    drawn.forEach((row) => { if (!kept.has(row)) row.classList.add('hidden'); });
    now.forEach((row) => { row.classList.remove('hidden'); row.setAttribute('transform', `translate(0 ${-rowHeight * row.above})`); });
    drawn = now;
  };
  const arrange = (isShown) => {
    const gone = [];
    shownRows = rows.filter((row) => {
      row.above = gone.length;
      if (!isShown(row)) gone.push(placeOf(row));
      return isShown(row);
    });
    const above = (y) => { let low = 0, high = gone.length; while (low < high) { const half = (low + high) >> 1; if (gone[half] < y) low = half + 1; else high = half; } return low; };
    const moved = (y) => y - rowHeight * above(y);
    lanes.forEach((lane) => lane.setAttribute('d', lane.dataset.path.replace(/V([0-9]+)/, (_, y) => `V${moved(Number(y))}`)));
    ends.forEach((end) => { const y = Number(end.getAttribute('d').match(/,([0-9]+)/)[1]); end.setAttribute('transform', `translate(0 ${moved(y) - y})`); });
    below.setAttribute('transform', `translate(0 ${-rowHeight * gone.length})`);
    const rest = height - rowHeight * gone.length;
    picture.setAttribute('height', rest);
    picture.setAttribute('viewBox', `0 0 ${width} ${rest}`);
    page.setAttribute('height', rest);
    byId('count').textContent = gone.length === 0 ? '' : `${shownRows.length} of ${rows.length} rows`;
    putMark();
    draw();
  };

  const textOf = (one) => (one.cells ? Array.from(one.cells, (cell) => cell.textContent).join(' ') : one.textContent);
  const words = (one) => (one.words ??= `${textOf(one)} ${one.dataset.actor ?? ''} ${one.dataset.by ?? ''}`.toLowerCase());
  // A choice leaves one row where it stands: the marked one if it is in sight, else the uppermost.
  const isInSight = (row) => placeNow(row) > diagram.scrollTop + namesHeight && placeNow(row) < diagram.scrollTop + diagram.clientHeight;
  const rowToKeep = () => (shownRows.includes(marked) && isInSight(marked) ? marked : shownRows.find(isInSight));
  const arrangeInPlace = (isShown) => {
    const kept = rowToKeep(), up = kept && placeNow(kept) - diagram.scrollTop;
    arrange(isShown);
    if (kept) { diagram.scrollTop = placeNow(kept) - up; draw(); }
  };
  const filter = () => {
    const actor = byId('actor').value, sought = byId('words').value.trim().toLowerCase();
    const kinds = all('input[name=kind]').filter((box) => box.checked).map((box) => box.value), isAll = !byId('failures').checked;
    const isKind = (one) => kinds.some((kind) => one.classList.contains(kind)) && (isAll || one.classList.contains('failure'));
    const fits = (one) => isKind(one) && (sought === '' || words(one).includes(sought));
    const isOf = (row) => actor === '' || row.dataset.actor === actor || row.dataset.by === actor;
    entries.forEach((line) => line.classList.toggle('hidden', !fits(line)));
    arrangeInPlace((row) => isOf(row) && fits(row));
    if (actor !== '') open(actor);
  };

  // A row and its entry are marked together, also while other rows are taken out.
  let marked = null;
  const putMark = () => {
    mark.classList.toggle('hidden', !shownRows.includes(marked));
    if (shownRows.includes(marked)) mark.setAttribute('y', placeNow(marked) - 20);
  };
  const markRow = (row) => {
    marked = row;
    putMark();
    if (!shownRows.includes(row)) return;
    const top = placeNow(row) - 20;
    if (top < diagram.scrollTop + namesHeight || top + 2 * rowHeight > diagram.scrollTop + diagram.clientHeight) {
      diagram.scrollTop = top - diagram.clientHeight / 2;
    }
    draw();
    const label = (row.querySelector('text') ?? row).getBBox(), left = diagram.scrollLeft;
    if (label.x < left || label.x + label.width > left + diagram.clientWidth) diagram.scrollLeft = label.x + (label.width - diagram.clientWidth) / 2;
  };
  const markEntry = (line) => {
    all('.target').forEach((one) => one.classList.remove('target'));
    if (line) line.classList.add('target');
  };
  const open = (actor) => all('details.journal').forEach((one) => { one.open = one.dataset.actor === actor; });
  const showEntry = (line) => {
    open(line.closest('details').dataset.actor);
    line.classList.remove('hidden');
    markEntry(line);
    line.scrollIntoView({ block: 'center' });
    line.focus({ preventScroll: true });
  };
  const follow = (row) => {
    const line = byId(row.dataset.entry);
    markEntry(null);
    if (line) showEntry(line);
    else all('details.journal').forEach((one) => { one.open = one.dataset.actor === row.dataset.actor; });
    markRow(row);
  };
  const rowAt = (event) => {
    const y = event.clientY - picture.getBoundingClientRect().top;
    return event.target.closest('.row') ?? shownRows[Math.round((y + 6 - first) / rowHeight)];
  };

  all('.name').forEach((one) => one.addEventListener('click', (event) => { event.stopPropagation(); open(one.dataset.actor); }));
  picture.addEventListener('click', (event) => { const row = rowAt(event); if (row) follow(row); });
  entries.forEach((line) => line.addEventListener('click', (event) => {
    const link = event.target.closest('.cause'), cause = link && byId(link.getAttribute('href').slice(1));
    if (cause) { event.preventDefault(); showEntry(cause); markRow(rowOf.get(cause)); }
    else { markEntry(line); markRow(rowOf.get(line)); }
  }));
  // Keys: up and down go from row to row, Enter goes to the entry, and on from there to its cause; a slash goes to the search.
  document.addEventListener('keydown', (event) => {
    const at = event.target, row = at.closest?.('.row'), line = at.closest?.('.entry');
    if (row && (event.key === 'ArrowDown' || event.key === 'ArrowUp')) {
      const next = shownRows[shownRows.indexOf(row) + (event.key === 'ArrowDown' ? 1 : -1)];
      if (next) { event.preventDefault(); markEntry(null); markRow(next); choose(next); }
    } else if (row && event.key === 'Enter') follow(row);
    else if (at === line && event.key === 'Enter') line.querySelector('.cause')?.click();
    else if (event.key === '/' && !at.closest?.('input')) { event.preventDefault(); byId('words').focus(); }
  });
  // One row can be reached by the tabulator: the one that was chosen last.
  let chosen = null;
  const choose = (row) => {
    if (chosen) chosen.removeAttribute('tabindex');
    chosen = row;
    row.setAttribute('tabindex', '0');
    row.focus({ preventScroll: true });
  };
  diagram.addEventListener('scroll', draw);
  diagram.addEventListener('keydown', (event) => {
    if (event.target === diagram && event.key === 'Enter' && drawn.length > 0) { event.stopPropagation(); const row = chosen && shownRows.includes(chosen) ? chosen : shownRows[0]; markRow(row); choose(row); }
  });
  all('select, input').forEach((one) => one.addEventListener('input', filter));
  document.querySelector('form').addEventListener('submit', (event) => event.preventDefault());
  addEventListener('resize', draw);
  rows.forEach((row) => row.classList.add('hidden'));
  arrange(() => true);
</script>
</body>
</html>
";
