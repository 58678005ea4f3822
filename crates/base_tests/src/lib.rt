//! Tests of the crates below the layers and beside them, by their public calls alone.
//!
//! They stand beside these crates and not in them because a crate that has tests is proved twice.
//!
//! | Module | Tests of |
//! |---|---|
//! | `slots` | `ritas_base` |
//! | `streams`, `disks` | `outside` |
//! | `bodies`, `values` | `frame_codec` |
//! | `tags`, `frames`, `channels`, `notes`, with the keys of `dealt` | `keyed_channel` |
//! | `sizes` | `ritas_base` and `keyed_channel`, where memory is ample |
//! | `schedules` | `schedule_file` |
//! | `records` | `record_file` |
//! | `journals` | `event_journal` |
//! | `replies` | `client_port` |
//! | `configs` | `cluster_config` |
//! | `resuming` | `link_resume` |
//! | `key_texts` | `key_rows` |
//! | `submitting` | `request_submit` |
//! | `watching` | `log_watch` |
//! | `holding` | `ooc_buffers` |
//! | `commands` | `command_log` |
//! | `epoch_texts` | `chain_file`, and the records of `record_file` |
//! | `observing`, `giving` | `observer`, and the pieces and queries of `client_port` |
#![tactic(auto)]

#[cfg(test)]
mod bodies;
#[cfg(test)]
mod channels;
#[cfg(test)]
mod commands;
#[cfg(test)]
mod configs;
#[cfg(test)]
mod dealt;
#[cfg(test)]
mod disks;
#[cfg(test)]
mod epoch_texts;
#[cfg(test)]
mod frames;
#[cfg(test)]
mod giving;
#[cfg(test)]
mod holding;
#[cfg(test)]
mod journals;
#[cfg(test)]
mod key_texts;
#[cfg(test)]
mod notes;
#[cfg(test)]
mod observing;
#[cfg(test)]
mod records;
#[cfg(test)]
mod replies;
#[cfg(test)]
mod resuming;
#[cfg(test)]
mod schedules;
#[cfg(test)]
mod sizes;
#[cfg(test)]
mod slots;
#[cfg(test)]
mod streams;
#[cfg(test)]
mod submitting;
#[cfg(test)]
mod tags;
#[cfg(test)]
mod values;
#[cfg(test)]
mod watching;
