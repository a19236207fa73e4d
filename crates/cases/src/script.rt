// The script of a case, made from its lines.
ghost use Rattle.std.specs.Prelude.{◌≡◌, ◌≤◌, max, vec_len, OnOk};

use std::alloc::Global;

// The script that these lines make.
pub fn script_of(heap: Global, lines: &str) -> anyhow::Result<Vec<u8>> {
    let mut script = Vec::new(heap);
    for line in lines.split('\n') {
        add_line(&mut script, line)?;
        script.push(b'\n')?;
    }
    let _ = script.pop();
    Ok(script)
}

// Adds what a line stands for. That a script only grows is said of each call that adds: it is about two states, which no invariant of a type tells.
fn add_line(script: &mut Vec<u8>, line: &str) -> anyhow::Result<()>
    ensures { vec_len script.old ≤ vec_len script.new }
{
    if let Some(rest) = line.strip_prefix("@repeat ") {
        let (count, text) = rest.split_once(' ').unwrap_or((rest, ""));
        repeat(script, count.parse()?, text)
    } else if let Some(size) = line.strip_prefix("@fill ") {
        fill(script, size.parse()?)
    } else if let Some(numbers) = line.strip_prefix("@bytes ") {
        add_bytes(script, numbers)
    } else {
        script.extend_from_slice(line.as_bytes())?;
        Ok(())
    }
}

// Adds a line so many times, with a line break between two of them.
fn repeat(script: &mut Vec<u8>, count: usize, line: &str) -> anyhow::Result<()>
    ensures { vec_len script.old ≤ vec_len script.new }
{
    let Some(more) = count.checked_sub(1) else {
        return Ok(());
    };
    script.extend_from_slice(line.as_bytes())?;
    for _ in 0..more {
        script.push(b'\n')?;
        script.extend_from_slice(line.as_bytes())?;
    }
    Ok(())
}

// Adds blanks until the script is this long.
fn fill(script: &mut Vec<u8>, size: usize) -> anyhow::Result<()>
    ensures grows { vec_len script.old ≤ vec_len script.new }
    ensures filled { OnOk result (vec_len script.new ≡ max (vec_len script.old) size) }
{
    script.resize(script.len().max(size), b' ')?;
    Ok(())
}

// Adds the bytes of these numbers.
fn add_bytes(script: &mut Vec<u8>, numbers: &str) -> anyhow::Result<()>
    ensures { vec_len script.old ≤ vec_len script.new }
{
    for number in numbers.split(' ') {
        script.push(number.parse::<u8>()?)?;
    }
    Ok(())
}
