use anyhow::bail;
use cutting::Form;
use std::env;

// What the words of the command line ask for.
#[derive(Drop)]
pub(super) struct Request {
    pub(super) settings: String,
    pub(super) file: Option<String>,
    pub(super) form: Form,
    pub(super) progress: bool,
}

const USAGE: &str =
    "grid SETTINGS [FILE] [--text] [--progress], SETTINGS map,processors,shift,levels,ways,blocks";

// The settings and the file, in that order, with options anywhere between them.
pub(super) fn read_words(rt: &HostRuntime) -> anyhow::Result<Request> {
    let mut settings: Option<String> = None;
    let mut file: Option<String> = None;
    let mut form = Form::Records;
    let mut progress = false;
    for word in env::args(rt)?.skip(1) {
        match word.as_str() {
            "--text" => form = Form::Text,
            "--progress" => progress = true,
            option if option.starts_with("--") => bail!("{USAGE}"),
            _ if settings.is_none() => settings = Some(word),
            _ if file.is_none() => file = Some(word),
            _ => bail!("{USAGE}"),
        }
    }
    let Some(settings) = settings else {
        bail!("{USAGE}");
    };
    Ok(Request {
        settings,
        file,
        form,
        progress,
    })
}
