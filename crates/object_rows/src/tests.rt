// Objects put, read and searched, each beside git's own: what stands then, what is read, and that each refusal comes.
mod common;
mod pointer_rows;
mod putting_rows;
mod reading_rows;
mod searching_rows;
