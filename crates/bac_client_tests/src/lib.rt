//! Tests of requests, links and walks by their public calls: over links that answer from a list and
//! over a link straight to a device, and callers that see public contracts alone, of what is
//! printed over a port too.
#![tactic(auto)]

#[cfg(test)]
mod again_callers;
#[cfg(test)]
mod apart_callers;
#[cfg(test)]
mod came_callers;
#[cfg(test)]
mod direct_callers;
#[cfg(test)]
mod direct_link;
#[cfg(test)]
mod foreign_callers;
#[cfg(test)]
mod foreign_port;
#[cfg(test)]
mod full_log;
#[cfg(test)]
mod growing_callers;
#[cfg(test)]
mod honest_callers;
#[cfg(test)]
mod link;
#[cfg(test)]
mod link_callers;
#[cfg(test)]
mod routed_link;
#[cfg(test)]
mod walk;
#[cfg(test)]
mod walk_callers;
#[cfg(test)]
mod world;
#[cfg(test)]
mod world_callers;
