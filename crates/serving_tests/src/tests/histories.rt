mod drawing;
mod lanes;
mod replay;
mod replies;
mod walks;
