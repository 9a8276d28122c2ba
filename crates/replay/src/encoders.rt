use crate::Answered;
use crate::words::Args;

mod immediate;
mod memory;
mod vector;

/// The encoders, each under the name of its form.
pub fn answer(name: &str, args: &mut Args) -> Answered {
    let form = name.strip_prefix("enc_").unwrap_or("");
    let (family, _) = form.split_once('_').unwrap_or((form, ""));
    match family {
        "e" | "ri" | "ril" | "rie" => immediate::answer(name, args),
        "vri" | "vrr" | "vrs" | "vrx" => vector::answer(name, args),
        _ => memory::answer(name, args),
    }
}
