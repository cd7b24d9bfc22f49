// Whole calls, each beside what it is to leave, print and answer.
mod annexed;
mod annexed_stops;
mod calls;
mod courses;
mod create;
mod devices;
mod files;
mod help;
mod logs;
mod messages;
mod refusals;
mod save_refusals;
mod save_stops;
mod saves;
mod statuses;
mod stops;
