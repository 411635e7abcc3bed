// What a line of a script asks for.
use crate::escapes::unescaped;
use crate::harm::{Device, device_of};
use crate::held::empty_vaults;
use crate::playing::{begin_grid, play_words};
use crate::repeats::Repeat;
use crate::scene::Scene;
use crate::showing::{add_log, add_rows};
use grid_model::read_number;
use std::alloc::{AllocError, Global};
use std::mem::replace;

/// Does what the line asks for, and answers what is shown of it.
pub(crate) fn play_line(
    alloc: Global,
    scene: &mut Scene,
    line: &str,
) -> Result<String, AllocError> {
    let (name, rest) = line.split_once(' ').unwrap_or((line, ""));
    match name {
        "" | "#" => Ok(String::new(alloc)),
        "case" => {
            scene.begin(alloc)?;
            format!(in alloc; "\ncase {rest}\n")
        }
        "serve" => play_words(alloc, scene, "serve"),
        "run" => play_words(alloc, scene, rest),
        "rows" => {
            let mut shown = String::new(alloc);
            add_rows(alloc, &mut shown, &scene.held)?;
            Ok(shown)
        }
        "log" => {
            let mut shown = String::new(alloc);
            add_log(&mut shown, &scene.before, &scene.held.main)?;
            Ok(shown)
        }
        _ => set(alloc, scene, name, rest),
    }
}

// Does what a line asks for that shows nothing, if there is such a line.
fn set(alloc: Global, scene: &mut Scene, name: &str, rest: &str) -> Result<String, AllocError> {
    let is_known = match name {
        ">" | "+" | "times" | "then" => add_input(alloc, scene, name, rest)?,
        "fail" | "lose" | "word" | "slowly" | "each" | "stops" => spoil(alloc, scene, name, rest)?,
        _ => hold(alloc, scene, name, rest)?,
    };
    if is_known {
        return Ok(String::new(alloc));
    }
    format!(in alloc; "no such line: {name} {rest}\n")
}

// Adds to the input of the next run, or begins that of the run behind it.
fn add_input(alloc: Global, scene: &mut Scene, name: &str, rest: &str) -> Result<bool, AllocError> {
    match name {
        "then" => {
            let input = replace(&mut scene.input, Vec::new(alloc));
            scene.later = Some(input);
        }
        "times" => {
            let (count, text) = first_number(alloc, rest)?;
            let bytes = unescaped(alloc, text)?;
            for _ in 0..count {
                scene.input.extend_from_slice(&bytes)?;
            }
        }
        _ => {
            scene.input.extend_from_slice(&unescaped(alloc, rest)?)?;
            if name == ">" {
                scene.input.push(b'\n')?;
            }
        }
    }
    Ok(true)
}

// Sets what goes wrong in the next run, or how often it is done.
fn spoil(alloc: Global, scene: &mut Scene, name: &str, rest: &str) -> Result<bool, AllocError> {
    match name {
        "slowly" => scene.harm.most = 1,
        "stops" => scene.repeat = Repeat::Stops,
        "word" => (scene.harm.word, _) = first_number(alloc, rest)?,
        "lose" => {
            let (file, from) = first_number(alloc, rest)?;
            let (from, _) = first_number(alloc, from)?;
            scene.harm.lost = (file, from);
        }
        "each" => {
            let (device, calls) = first_device(rest);
            let (from, to) = first_number(alloc, calls)?;
            let (to, _) = first_number(alloc, to)?;
            scene.repeat = Repeat::Each { device, from, to };
        }
        _ => {
            let mut words = rest.split(' ');
            for _ in 0..4 {
                if let Some(device) = device_of(words.next().unwrap_or("")) {
                    let (call, _) = first_number(alloc, words.next().unwrap_or(""))?;
                    scene.harm = scene.harm.with(device, call);
                }
            }
        }
    }
    Ok(true)
}

// Sets what the devices hold.
fn hold(alloc: Global, scene: &mut Scene, name: &str, rest: &str) -> Result<bool, AllocError> {
    match name {
        "grid" => {
            let (count, _) = first_number(alloc, rest)?;
            begin_grid(alloc, scene, count)?;
        }
        "vaults" => {
            let (count, _) = first_number(alloc, rest)?;
            scene.held.vaults = empty_vaults(alloc, count)?;
        }
        "main" => scene.held.main = unescaped(alloc, rest)?,
        "spare" => scene.held.spare = unescaped(alloc, rest)?,
        "cut" => {
            let (len, _) = first_number(alloc, rest)?;
            scene.held.main.truncate(len as usize);
        }
        "record" => {
            let body = unescaped(alloc, rest)?;
            add_record(&mut scene.held.main, &body)?;
        }
        "keep" => scene.keep(alloc, rest)?,
        "from" => return scene.hold(rest),
        _ => return Ok(false),
    }
    Ok(true)
}

// Adds a record behind the last gate of main.
fn add_record(main: &mut Vec<u8>, body: &[u8]) -> Result<(), AllocError> {
    main.pop();
    main.push(1)?;
    main.extend_from_slice(&(body.len() as u64).to_be_bytes())?;
    main.extend_from_slice(body)?;
    main.push(0)?;
    Ok(())
}

// The number in front of a blank, and what stands behind that.
fn first_number(alloc: Global, text: &str) -> Result<(u64, &str), AllocError> {
    let (digits, rest) = text.split_once(' ').unwrap_or((text, ""));
    let number = read_number(alloc, digits.as_bytes())?.unwrap_or(0);
    Ok((number, rest))
}

// The device in front of a blank, or main, and what stands behind that.
fn first_device(text: &str) -> (Device, &str) {
    let (name, rest) = text.split_once(' ').unwrap_or((text, ""));
    (device_of(name).unwrap_or(Device::Main), rest)
}
